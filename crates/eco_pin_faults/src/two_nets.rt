//! The first pin that stands on two nets.

ghost use Rattle.std.specs.Prelude.{◌≡◌, ◌++◌, ◌&&◌, IfOk, IsSome, codes};
ghost use Rattle.std.specs.Option.{option_map};
ghost use Rattle.eco_pin_faults.specs.Faults.{differs, first_differing, first_net, is_on_second, two_nets_at};
ghost use Rattle.eco_pin_faults.specs.Held.{net_by, parts_by, place_by};
ghost use Rattle.eco_pin_faults.specs.Pins.{is_signal};
ghost use Rattle.eco_pin_faults.specs.Places.{places};

use crate::design_pins::{DesignPins, pins_of};
use crate::faults::TwoNets;
use crate::first_nets::{FirstNets, first_nets};
use crate::first_place::first_place;
use crate::known_pins::is_signal_pin;
use crate::place_test::PlaceTest;
use crate::placed_pin::PlacedPin;
use eco_common::{Memory, Name};
use eco_def::Design;
use eco_elaborate::Macros;
use std::alloc::Global;

/// Passes places on another net than at the pin's first place, of pins that aren't supply.
#[derive(Drop)]
struct OnSecond<'t, 'a, M> {
    nets: &'t FirstNets<'a>,
    pins: &'t DesignPins<'a>,
    macros: &'t M,
}

/// Whether the pin has another net at its first place.
fn has_other<'a>(nets: &FirstNets<'a>, place: &PlacedPin<'a>) -> bool
    ensures { result ≡ differs (net_by nets.now place.now.comp.now place.now.pin.now) place.now.net.now }
{
    match nets.get(&(place.comp, place.pin)) {
        None => false,
        Some(first) => *first != place.net,
    }
}

impl<'t, 'a, M: Macros> PlaceTest for OnSecond<'t, 'a, M> {
    ghost passes = { λ t p. differs (net_by t.nets.now p.comp p.pin) p.net && is_signal (M.kinds t.macros.now) (parts_by t.pins.now) p.comp p.pin };

    fn test(&self, place: &PlacedPin<'_>) -> Result<bool, Memory> {
        if has_other(self.nets, place) {
            is_signal_pin(self.pins, self.macros, place.comp, place.pin)
        } else {
            Ok(false)
        }
    }
}

/// `comp/pin`
fn pin_name(alloc: Global, place: &PlacedPin<'_>) -> Result<Name, Memory>
    ensures { IfOk result (λ n. n ≡ (place.now.comp.now ++ codes "/") ++ place.now.pin.now) }
{
    let mut bytes = Vec::new(alloc);
    bytes.extend_from_slice(place.comp)?;
    bytes.extend_from_slice(b"/")?;
    bytes.extend_from_slice(place.pin)?;
    Name::of(alloc, bytes.as_slice())
}

/// What is told of a place, where its pin has a first place.
fn told<'a>(alloc: Global, nets: &FirstNets<'a>, place: &PlacedPin<'a>) -> Result<TwoNets, Memory>
    requires { IsSome (net_by nets.now place.now.comp.now place.now.pin.now) }
    ensures { IfOk result (λ t. t ≡ two_nets_at (net_by nets.now place.now.comp.now place.now.pin.now) (place_by place.now)) }
{
    match nets.get(&(place.comp, place.pin)) {
        None => unreachable!(),
        Some(first) => Ok(TwoNets {
            pin: pin_name(alloc, place)?,
            first: Name::of(alloc, *first)?,
            second: Name::of(alloc, place.net)?,
        }),
    }
}

/// The first pin that stands on two nets, supply pins aside: `comp/pin` (`PIN/pin` for a top pin), the net at its first
/// place in the text, and the net at the first place that differs. The places of a pin are its joints and, for a top pin,
/// the net word of its `+ NET`.
pub fn find_two_nets<M: Macros>(
    alloc: Global,
    text: &[u8],
    design: &Design,
    macros: &M,
) -> Result<Option<TwoNets>, Memory>
    ensures { IfOk result (λ o. o ≡ option_map (λ p. two_nets_at (first_net (places text.now design.now) p.comp p.pin) p) (first_differing (M.kinds macros.now) text.now design.now)) }
{
    let nets = first_nets(alloc, text, design)?;
    let pins = pins_of(alloc, text, design)?;
    let test = OnSecond {
        nets: &nets,
        pins: &pins,
        macros,
    };
    let differing = first_place(&test, text, design)?;
    match differing {
        None => Ok(None),
        Some(place) => {
            let two = told(alloc, &nets, &place)?;
            Ok(Some(two))
        }
    }
}
