//! What a component is: a gate, or a box with pins.

ghost use Rattle.std.specs.Prelude.{◌≡◌, ◌<◌, ◌||◌, Some, length, slice_get, IfOk};
ghost use Rattle.std.specs.List.{list_any};
ghost use Rattle.std.specs.Option.{option_map};
ghost use Rattle.std.specs.Str.{bytes_eq};

use eco_common::{Dir, Memory, Name};
use eco_func::{MasterFn, OutputFn, Table};
use std::marker::Model;
use std::sync::ArcSlice;

/// A pin of a box.
#[derive(Drop)]
pub struct BoxPin {
    pub name: Name,
    pub dir: Dir,
}

/// The pins of a box, in order. Copies share one list.
#[derive(Drop)]
pub struct BoxPins {
    pins: ArcSlice<BoxPin>,
}

impl Model for BoxPins {
    ghost use Rattle.std.specs.Prelude.{List};
    ghost use Rattle.std.specs.Arc.{arc_slice_items};
    ghost use Rattle.eco_net.specs.declared.kind.BoxPin.{BoxPin};

    ghost Value = { List BoxPin };

    ghost view = { λ b. arc_slice_items b.pins };
}

impl BoxPins {
    ghost use Rattle.std.specs.Prelude.{◌≡◌, IfOk};

    /// The box pins of a list, in its order.
    pub fn of(pins: Vec<BoxPin>) -> Result<BoxPins, Memory>
        ensures { IfOk result (λ made. made ≡ pins.items) }
    {
        Ok(BoxPins {
            pins: ArcSlice::from_vec(pins)?,
        })
    }

    /// The pins, in order.
    pub fn as_slice(&self) -> &[BoxPin]
        ensures { result.now ≡ self.now }
    {
        self.pins.as_slice()
    }

    /// The same pins. No memory is taken: `Memory` comes only where there are too many copies to be counted.
    pub fn copy(&self) -> Result<BoxPins, Memory>
        ensures { IfOk result (λ pins. pins ≡ self.now) }
    {
        Ok(BoxPins {
            pins: self.pins.clone()?,
        })
    }
}

/// What a pin of a component is for.
#[derive(Clone, Copy, Debug, Drop, PartialEq, Eq)]
pub enum PinUse {
    /// An input of a gate.
    GateInput,
    /// An output of a gate, by its table.
    GateOutput(Table),
    /// A pin of a box, by its direction.
    BoxedPin(Dir),
}

/// What a component is. The pins of a gate are its inputs, then its outputs; those of a box are its list. Supply pins
/// are in no netlist.
#[derive(Drop)]
pub enum Kind {
    Gate(MasterFn),
    Boxed(BoxPins),
}

impl Kind {
    ghost use Rattle.eco_net.specs.Netlist.{pins_of};
    ghost use Rattle.eco_net.specs.Listing.{given_kind, HasOwnPins, role_of_use};
    ghost use Rattle.eco_net.specs.Kept.{IsKind};

    /// How many pins it has.
    pub(crate) fn pin_count(&self) -> usize
        ensures count { result ≡ length (pins_of (given_kind self.now)) }
        ensures is_kind { HasOwnPins self.now → IsKind (given_kind self.now) }
    {
        match self {
            Kind::Gate(master) => master.inputs().len() + master.outputs().len(),
            Kind::Boxed(pins) => pins.as_slice().len(),
        }
    }

    /// The same kind. No memory is taken: `Memory` comes only where there are too many copies to be counted.
    pub fn copy(&self) -> Result<Kind, Memory>
        ensures { IfOk result (λ k. k ≡ self.now) }
    {
        match self {
            Kind::Gate(master) => Ok(Kind::Gate(master.copy()?)),
            Kind::Boxed(pins) => Ok(Kind::Boxed(pins.copy()?)),
        }
    }

    /// What a pin of it is for.
    pub(crate) fn pin_use(&self, pin: usize) -> PinUse
        requires { pin < length (pins_of (given_kind self.now)) }
        ensures { option_map (λ p. p.1) (slice_get (pins_of (given_kind self.now)) pin) ≡ Some (role_of_use result) }
    {
        match self {
            Kind::Gate(master) => {
                let inputs = master.inputs().len();
                if pin < inputs {
                    PinUse::GateInput
                } else {
                    PinUse::GateOutput(master.outputs()[pin - inputs].table)
                }
            }
            Kind::Boxed(pins) => PinUse::BoxedPin(pins.as_slice()[pin].dir),
        }
    }

    /// The name of a pin of it.
    pub(crate) fn pin_name(&self, pin: usize) -> &[u8]
        requires { pin < length (pins_of (given_kind self.now)) }
        ensures { option_map (λ p. p.0) (slice_get (pins_of (given_kind self.now)) pin) ≡ Some result.now }
    {
        match self {
            Kind::Gate(master) => {
                let inputs = master.inputs();
                if pin < inputs.len() {
                    inputs[pin].bytes()
                } else {
                    master.outputs()[pin - inputs.len()].pin.bytes()
                }
            }
            Kind::Boxed(pins) => pins.as_slice()[pin].name.bytes(),
        }
    }
}

impl Kind {
    ghost use Rattle.std.specs.Prelude.{map};
    ghost use Rattle.eco_net.specs.Netlist.{pins_of};
    ghost use Rattle.eco_net.specs.Listing.{given_kind};

    /// Whether it has a pin of this name.
    pub fn has_pin(&self, name: &[u8]) -> bool
        ensures { result ≡ list_any (λ p. bytes_eq p name.now) (map (λ p. p.0) (pins_of (given_kind self.now))) }
    {
        match self {
            Kind::Gate(master) => gate_has(master, name),
            Kind::Boxed(pins) => box_has(pins.as_slice(), name),
        }
    }
}

impl Kind {
    ghost use Rattle.std.specs.Prelude.{map, ◌^◌};
    ghost use Rattle.eco_net.specs.Netlist.{pins_of};
    ghost use Rattle.eco_net.specs.Listing.{given_kind, FindsName};

    /// The number of the pin of a name. How many pins there are is at hand.
    pub(crate) fn find_among(&self, pins: u32, name: &[u8]) -> Option<u32>
        requires { pins ≡ length (pins_of (given_kind self.now)) }
        ensures { FindsName (map (λ p. p.0) (pins_of (given_kind self.now))) name.now result }
    {
        for pin in 0..pins {
            if self.pin_name(pin as usize) == name {
                return Some(pin);
            }
        }
        None
    }

    /// The number of the pin of a name.
    pub(crate) fn find_pin(&self, name: &[u8]) -> Option<u32>
        requires { length (pins_of (given_kind self.now)) < 2 ^ 32 }
        ensures { FindsName (map (λ p. p.0) (pins_of (given_kind self.now))) name.now result }
    {
        self.find_among(self.pin_count() as u32, name)
    }
}

fn is_among(names: &[Name], name: &[u8]) -> bool
    ensures { result ≡ list_any (λ p. bytes_eq p name.now) names.now }
{
    names.iter().any(|pin| pin.is(name))
}

fn is_output(outputs: &[OutputFn], name: &[u8]) -> bool
    ensures { result ≡ list_any (λ o. bytes_eq o.pin name.now) outputs.now }
{
    outputs.iter().any(|output| output.pin.is(name))
}

/// Whether a gate has a pin of this name.
fn gate_has(master: &MasterFn, name: &[u8]) -> bool
    ensures { result ≡ (list_any (λ p. bytes_eq p name.now) master.now.inputs || list_any (λ o. bytes_eq o.pin name.now) master.now.outputs) }
{
    is_among(master.inputs(), name) || is_output(master.outputs(), name)
}

/// Whether a box has a pin of this name.
fn box_has(pins: &[BoxPin], name: &[u8]) -> bool
    ensures { result ≡ list_any (λ p. bytes_eq p.name name.now) pins.now }
{
    pins.iter().any(|pin| pin.name.is(name))
}

impl PinUse {
    ghost use Rattle.eco_net.specs.Drivers.{is_driving, dir_of_role};
    ghost use Rattle.eco_net.specs.Listing.{role_of_use};

    /// Whether such a pin drives its net.
    pub(crate) fn is_driving(self) -> bool
        ensures { result ≡ is_driving (Some (role_of_use self)) }
    {
        match self {
            PinUse::GateInput => false,
            PinUse::GateOutput(_) => true,
            PinUse::BoxedPin(dir) => dir != Dir::Input,
        }
    }

    /// Its direction: a gate's inputs are inputs, its outputs are outputs.
    pub(crate) fn dir(self) -> Dir
        ensures { result ≡ dir_of_role (role_of_use self) }
    {
        match self {
            PinUse::GateInput => Dir::Input,
            PinUse::GateOutput(_) => Dir::Output,
            PinUse::BoxedPin(dir) => dir,
        }
    }
}
