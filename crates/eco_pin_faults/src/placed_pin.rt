//! Where a pin stands on a net.

ghost use Rattle.std.specs.Prelude.{◌≡◌};
ghost use Rattle.eco_pin_faults.specs.Held.{place_by};
ghost use Rattle.eco_pin_faults.specs.Places.{joint_place, top_place};

use eco_def::{Joint, NetStatement, TopPin};
use eco_text::bytes_at;

/// A joint of a statement, or a top pin with its net, by the words of its text.
#[derive(Clone, Copy, Debug, Drop)]
pub struct PlacedPin<'a> {
    /// `PIN` for a top pin.
    pub comp: &'a [u8],
    pub pin: &'a [u8],
    pub net: &'a [u8],
    /// Whether the statement is one of SPECIALNETS.
    pub special: bool,
    /// Where the joint's `(` stands, or the word of the top pin's net.
    pub start: u32,
}

pub fn joint_at<'a>(text: &'a [u8], net: &NetStatement, joint: &Joint) -> PlacedPin<'a>
    ensures { place_by result ≡ joint_place text.now net.now joint.now }
{
    PlacedPin {
        comp: bytes_at(text, joint.comp),
        pin: bytes_at(text, joint.pin),
        net: bytes_at(text, net.name),
        special: net.special,
        start: joint.start,
    }
}

pub fn top_at<'a>(text: &'a [u8], pin: &TopPin) -> PlacedPin<'a>
    ensures { place_by result ≡ top_place text.now pin.now }
{
    PlacedPin {
        comp: b"PIN",
        pin: bytes_at(text, pin.name),
        net: bytes_at(text, pin.net),
        special: false,
        start: pin.net.start,
    }
}
