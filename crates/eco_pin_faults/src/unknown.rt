//! The first joint that names no pin.

ghost use Rattle.std.specs.Prelude.{◌≡◌, ◌&&◌, not, IfOk};
ghost use Rattle.std.specs.Option.{option_map};
ghost use Rattle.eco_pin_faults.specs.Faults.{first_unknown, is_every, is_unknown, unknown_at};
ghost use Rattle.eco_pin_faults.specs.Held.{parts_by, place_by};

use crate::design_pins::{DesignPins, pins_of};
use crate::faults::UnknownPin;
use crate::first_place::first_joint;
use crate::known_pins::{is_signal_pin, is_supply_pin};
use crate::place_test::PlaceTest;
use crate::placed_pin::PlacedPin;
use crate::words::is_any;
use eco_common::{Memory, Name};
use eco_def::Design;
use eco_elaborate::Macros;
use std::alloc::Global;

/// Passes joints of no pin.
#[derive(Drop)]
struct NoPin<'t, 'a, M> {
    pins: &'t DesignPins<'a>,
    macros: &'t M,
}

/// Whether a joint stands for every component.
pub fn is_for_every(place: &PlacedPin<'_>) -> bool
    ensures { result ≡ is_every (place_by place.now) }
{
    place.special && is_any(place.comp)
}

impl<'t, 'a, M: Macros> PlaceTest for NoPin<'t, 'a, M> {
    ghost passes = { λ t. is_unknown (M.kinds t.macros.now) (M.powers t.macros.now) (parts_by t.pins.now) };

    fn test(&self, place: &PlacedPin<'_>) -> Result<bool, Memory> {
        if is_for_every(place) {
            return Ok(false);
        }
        let is_signal = is_signal_pin(self.pins, self.macros, place.comp, place.pin)?;
        if is_signal {
            return Ok(false);
        }
        Ok(!is_supply_pin(self.pins, self.macros, place.comp, place.pin))
    }
}

/// The first joint that names no component, no pin of its macro or no top pin: its net, and where its `(` stands.
///
/// `PIN` stands for the design's own pins. `*` in SPECIALNETS stands for every component that has the pin, and is no fault
/// where none has it; in NETS it names no component.
pub fn find_unknown_pin<M: Macros>(
    alloc: Global,
    text: &[u8],
    design: &Design,
    macros: &M,
) -> Result<Option<UnknownPin>, Memory>
    ensures { IfOk result (λ o. o ≡ option_map unknown_at (first_unknown (M.kinds macros.now) (M.powers macros.now) text.now design.now)) }
{
    let pins = pins_of(alloc, text, design)?;
    let test = NoPin {
        pins: &pins,
        macros,
    };
    let first = first_joint(&test, text, design)?;
    match first {
        None => Ok(None),
        Some(place) => {
            let net = Name::of(alloc, place.net)?;
            Ok(Some(UnknownPin {
                net,
                place: place.start,
            }))
        }
    }
}
