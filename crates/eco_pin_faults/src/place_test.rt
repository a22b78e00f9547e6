//! Tests of the places of pins.

ghost use Rattle.std.specs.Prelude.{◌≡◌, Bool, IfOk};
ghost use Rattle.eco_pin_faults.specs.Held.{place_by};
ghost use Rattle.eco_pin_faults.specs.Places.{PinPlace};

use crate::placed_pin::PlacedPin;
use eco_common::Memory;

pub trait PlaceTest {
    /// Which places pass.
    ghost passes: { Self → PinPlace → Bool };

    fn test(&self, place: &PlacedPin<'_>) -> Result<bool, Memory>
        ensures { IfOk result (λ b. b ≡ passes self.now (place_by place.now)) };
}
