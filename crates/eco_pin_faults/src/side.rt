//! Which statements are meant.

ghost use Rattle.std.specs.Prelude.{◌≡◌};
ghost use Rattle.eco_pin_faults.specs.Held.{takes};
ghost use Rattle.eco_pin_faults.specs.Places.{pins_start as start_of_pins};

use eco_def::{NetStatement, TopPin};

/// The statements that begin before a place of the text, those that don't, or all.
#[derive(Clone, Copy, Debug, Drop)]
pub enum Side {
    Before(u32),
    Behind(u32),
    Both,
}

/// Whether a statement stands there.
pub fn stands_there(side: Side, net: &NetStatement) -> bool
    ensures { result ≡ takes side net.now }
{
    match side {
        Side::Before(place) => net.start < place,
        Side::Behind(place) => net.start >= place,
        Side::Both => true,
    }
}

/// Where the first top pin is named, or 0.
pub fn pins_start(pins: &[TopPin]) -> u32
    ensures { result ≡ start_of_pins pins.now }
{
    match pins {
        [] => 0,
        [first, ..] => first.name.start,
    }
}
