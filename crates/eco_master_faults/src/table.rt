//! What each master of a library is for a netlist.

ghost use Rattle.std.specs.Prelude.{◌≡◌, ◌&&◌, [], ◌∷◌, ◌++◌, None, IfOk, OnOk};
ghost use Rattle.std.specs.List.{list_any};
ghost use Rattle.std.specs.Str.{bytes_eq};
ghost use Rattle.eco_func.specs.FunctionsFile.{find_master as find_function};
ghost use Rattle.eco_lef.specs.Known.{pin_names};
ghost use Rattle.eco_lef.specs.Names.{AreDistinct, HaveDistinctPins};
ghost use Rattle.eco_lef.specs.Sizes.{KeepSizes};
ghost use Rattle.eco_master_faults.specs.Making.{boxed, IsKindOf, AreKinds};

use eco_common::{Memory, Size};
use eco_elaborate::Macros;
use eco_func::Functions;
use eco_lef::{Library, Master, MasterPin};
use eco_net::{BoxPin, BoxPins, Kind};
use sqlite_items::Items;
use std::alloc::Global;
use std::marker::Model;

/// The masters of a library, each with what it is for a netlist. Components share one record of it.
#[derive(Drop)]
pub struct MasterTable<'a> {
    library: &'a Library,
    functions: &'a Functions,
    kinds: Items<Kind>,
}

impl<'a> Model for MasterTable<'a> {
    ghost use Rattle.eco_lef.specs.Sizes.{KeepSizes};
    ghost use Rattle.eco_master_faults.specs.Tables.{Masters};
    ghost use Rattle.eco_master_faults.specs.Making.{AreKinds};

    ghost Value = { Masters };

    ghost view = { λ t. record { library = t.library.now; functions = t.functions.now } };

    ghost invariant = { λ t. AreKinds t.functions.now t.library.now t.kinds × KeepSizes t.library.now };
}

/// Adds a pin to those of a box, unless it is a supply pin.
fn add_pin(alloc: Global, pins: &mut Vec<BoxPin>, pin: &MasterPin) -> Result<(), Memory>
    ensures { OnOk result (pins.new.items ≡ pins.old.items ++ boxed (pin.now ∷ [])) }
{
    if pin.supply {
        return Ok(());
    }
    let name = pin.name.copy(alloc)?;
    let dir = pin.dir;
    pins.push(BoxPin { name, dir })?;
    Ok(())
}

/// A master's pins that aren't supply, in its order.
fn signal_pins(alloc: Global, master: &Master) -> Result<Vec<BoxPin>, Memory>
    ensures { IfOk result (λ pins. pins.items ≡ boxed master.now.pins) }
{
    let pins = master.pins.as_slice();
    let mut made = Vec::new(alloc);
    for pin in pins {
        add_pin(alloc, &mut made, pin)?;
    }
    Ok(made)
}

/// A master as a box. One of 2^32 pins or more is more than memory is said to hold.
fn boxed_kind(alloc: Global, master: &Master) -> Result<Kind, Memory>
    requires { AreDistinct (pin_names master.now.pins) }
    ensures { IfOk result (λ kind. IsKindOf None master.now kind) }
{
    let pins = signal_pins(alloc, master)?;
    let count = pins.as_slice().len();
    if count > u32::MAX as usize {
        return Err(Memory);
    }
    Ok(Kind::Boxed(BoxPins::of(pins)?))
}

/// What a master is: a gate, where the functions file names it, and else a box.
fn kind_of_master(alloc: Global, master: &Master, functions: &Functions) -> Result<Kind, Memory>
    requires { AreDistinct (pin_names master.now.pins) }
    ensures { IfOk result (λ kind. IsKindOf (find_function master.now.name functions.now) master.now kind) }
{
    match functions.find(master.name.bytes()) {
        Some(function) => Ok(Kind::Gate(function.copy()?)),
        None => boxed_kind(alloc, master),
    }
}

/// What each master of a library is.
fn kinds_of_masters(
    alloc: Global,
    masters: &[Master],
    functions: &Functions,
) -> Result<Vec<Kind>, Memory>
    requires { HaveDistinctPins masters.now }
    ensures { IfOk result (λ kinds. AreKinds functions.now masters.now kinds.items) }
{
    let mut kinds = Vec::with_capacity(alloc, masters.len())?;
    for master in masters {
        kinds.push(kind_of_master(alloc, master, functions)?)?;
    }
    Ok(kinds)
}

impl<'a> MasterTable<'a> {
    /// What each master of a library is for a netlist: a gate with its tables where the functions file names it, and else a
    /// box with its pins that aren't supply, in the library's order. The pins of each master have names of their own, as
    /// reading a library ensures, and no master is too large.
    pub fn of(
        alloc: Global,
        library: &'a Library,
        functions: &'a Functions,
    ) -> Result<MasterTable<'a>, Memory>
        requires pins { HaveDistinctPins library.now }
        requires sizes { KeepSizes library.now }
        ensures { IfOk result (λ table. table ≡ record { library = library.now; functions = functions.now }) }
    {
        let kinds = kinds_of_masters(alloc, library.masters(), functions)?;
        Ok(MasterTable {
            library,
            functions,
            kinds: Items::from_vec(kinds),
        })
    }
}

/// Whether a master has a supply pin of a name.
fn has_supply(master: &Master, name: &[u8]) -> bool
    ensures { result ≡ list_any (λ p. p.supply && bytes_eq p.name name.now) master.now.pins }
{
    master
        .pins
        .as_slice()
        .iter()
        .any(|pin| pin.supply && pin.name.is(name))
}

impl<'a> Macros for MasterTable<'a> {
    ghost use Rattle.eco_master_faults.specs.Tables.{kinds_of, powers_of};

    ghost kinds = { λ t. kinds_of t.library t.functions };

    ghost powers = { λ t. powers_of t.library };

    fn kind(&self, name: &[u8]) -> Result<Option<Kind>, Memory> {
        let _functions = self.functions;
        let place = match self.library.place(name) {
            Some(place) => place,
            None => return Ok(None),
        };
        match self.kinds.get(place) {
            Some(kind) => Ok(Some(kind.copy()?)),
            None => Ok(None),
        }
    }

    fn size(&self, name: &[u8]) -> Size {
        match self.library.find(name) {
            Some(master) => Size {
                width: master.width,
                height: master.height,
            },
            None => Size {
                width: 0,
                height: 0,
            },
        }
    }

    fn is_supply(&self, model: &[u8], pin: &[u8]) -> bool {
        match self.library.find(model) {
            Some(master) => has_supply(master, pin),
            None => false,
        }
    }
}
