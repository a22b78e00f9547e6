//! The pins of a macro, whose names stand once.

use crate::master::MasterPin;
use crate::names::{Names, add_name, has_name};
use sqlite_items::Items;
use std::alloc::{AllocError, Global};
use std::collections::HashMap;
use std::marker::Model;

/// Pins in order, and their names.
#[derive(Drop)]
pub struct PinList {
    pins: Items<MasterPin>,
    names: Names,
}

impl Model for PinList {
    ghost use Rattle.std.specs.Prelude.{List};
    ghost use Rattle.eco_lef.specs.Known.{AreNames, pin_names};
    ghost use Rattle.eco_lef.specs.declared.master.MasterPin.{MasterPin};

    ghost Value = { List MasterPin };

    ghost view = { λ l. l.pins };

    ghost invariant = { λ l. AreNames l.names (pin_names l.pins) };
}

impl PinList {
    ghost use Rattle.std.specs.Prelude.{◌≡◌, [], ◌∷◌, ◌++◌, IfOk};
    ghost use Rattle.eco_common.specs.NameBytes.{is_among};
    ghost use Rattle.eco_lef.specs.Known.{pin_names};

    pub fn new(alloc: Global) -> PinList
        ensures { result ≡ [] }
    {
        PinList {
            pins: Items::new(alloc),
            names: HashMap::new(alloc),
        }
    }

    /// Whether a pin has this name.
    pub fn has(&self, name: &[u8]) -> bool
        ensures { result ≡ is_among (pin_names self.now) name.now }
    {
        has_name(&self.names, name)
    }

    /// The pins with one more.
    pub fn with(self, alloc: Global, pin: MasterPin) -> Result<PinList, AllocError>
        ensures { IfOk result (λ l. l ≡ self ++ pin ∷ []) }
    {
        let PinList {
            mut pins,
            mut names,
        } = self;
        add_name(alloc, &mut names, pin.name.bytes(), pins.len())?;
        pins.push(pin)?;
        Ok(PinList { pins, names })
    }

    pub fn into_items(self) -> Items<MasterPin>
        ensures { result ≡ self }
    {
        let PinList { pins, names: _ } = self;
        pins
    }
}
