//! A library of masters.

use crate::master::Master;
use crate::names::{Names, add_name, has_name};
use sqlite_items::Items;
use std::alloc::{AllocError, Global};
use std::collections::HashMap;
use std::marker::Model;

/// The masters of a library in the order of its text, which are found by their names.
#[derive(Drop)]
pub struct Library {
    masters: Items<Master>,
    places: Names,
}

impl Model for Library {
    ghost use Rattle.std.specs.Prelude.{List};
    ghost use Rattle.eco_lef.specs.Known.{AreNames, names_of};
    ghost use Rattle.eco_lef.specs.declared.master.Master.{Master};

    ghost Value = { List Master };

    ghost view = { λ l. l.masters };

    ghost invariant = { λ l. AreNames l.places (names_of l.masters) };
}

impl Library {
    ghost use Rattle.std.specs.Prelude.{◌≡◌, [], ◌∷◌, ◌++◌, length, option_copied, IfOk};
    ghost use Rattle.eco_common.specs.NameBytes.{is_among};
    ghost use Rattle.eco_lef.specs.Known.{names_of, first_place};
    ghost use Rattle.eco_lef.specs.Collected.{find_master};

    pub(crate) fn new(alloc: Global) -> Library
        ensures { result ≡ [] }
    {
        Library {
            masters: Items::new(alloc),
            places: HashMap::new(alloc),
        }
    }

    /// Whether a master has this name.
    pub(crate) fn has(&self, name: &[u8]) -> bool
        ensures { result ≡ is_among (names_of self.now) name.now }
    {
        has_name(&self.places, name)
    }

    /// The library with one more master.
    pub(crate) fn with(self, alloc: Global, master: Master) -> Result<Library, AllocError>
        ensures { IfOk result (λ l. l ≡ self ++ master ∷ []) }
    {
        let Library {
            mut masters,
            mut places,
        } = self;
        add_name(alloc, &mut places, master.name.bytes(), masters.len())?;
        masters.push(master)?;
        Ok(Library { masters, places })
    }

    pub(crate) fn len(&self) -> usize
        ensures { result ≡ length self.now }
    {
        self.masters.len()
    }

    /// The masters, in the order of the text.
    pub fn masters(&self) -> &[Master]
        ensures { result.now ≡ self.now }
    {
        self.masters.as_slice()
    }

    /// The place of the master of a name, from 0 in the order of the text.
    pub fn place(&self, name: &[u8]) -> Option<usize>
        ensures { result ≡ first_place (names_of self.now) name.now }
    {
        let _masters = &self.masters;
        self.places.get(name).copied()
    }

    /// The master of a name.
    pub fn find(&self, name: &[u8]) -> Option<&Master>
        ensures { option_copied result ≡ find_master name.now self.now }
    {
        match self.places.get(name) {
            Some(place) => self.masters.get(*place),
            None => None,
        }
    }
}
