//! The masters of a functions file.

use crate::master::MasterFn;
use std::marker::Model;

/// The masters of a functions file, in byte order of their names.
#[derive(Drop)]
pub struct Functions {
    masters: Vec<MasterFn>,
}

impl Model for Functions {
    ghost use Rattle.std.specs.Prelude.{List};
    ghost use Rattle.eco_func.specs.Masters.{MasterTables};
    ghost use Rattle.eco_func.specs.FunctionsFile.{IsByName};

    ghost Value = { List MasterTables };

    ghost view = { λ f. f.masters.items };

    ghost invariant = { λ f. IsByName f.masters.items };
}

impl Functions {
    ghost use Rattle.std.specs.Prelude.{◌≡◌, option_copied};
    ghost use Rattle.eco_func.specs.FunctionsFile.{IsByName, find_master};

    pub(crate) fn of(masters: Vec<MasterFn>) -> Functions
        requires { IsByName masters.items }
        ensures { result ≡ masters.items }
    {
        Functions { masters }
    }

    /// The master of a name.
    pub fn find(&self, name: &[u8]) -> Option<&MasterFn>
        ensures { option_copied result ≡ find_master name.now self.now }
    {
        let found = self
            .masters
            .binary_search_by(|master| master.name().bytes().cmp(&name));
        match found {
            Ok(place) => Some(&self.masters[place]),
            Err(_) => None,
        }
    }
}
