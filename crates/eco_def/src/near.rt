//! A joint by the distances of its words.

ghost use Rattle.std.specs.Prelude.{◌≡◌, false, IfSome};
ghost use Rattle.eco_def.specs.Near.{onward, joint_behind};

use crate::design::Joint;
use eco_text::Word;

/// A joint whose words are no quoted ones and stand so close that each distance is below 256 bytes: nearly every joint of
/// a design. It takes 6 bytes where a `Joint` takes 32.
#[derive(Clone, Copy, Debug, Default, Drop, PartialEq, Eq)]
pub struct NearJoint {
    /// From the end of the joint before it to its opening bracket.
    before: u8,
    /// From there to its component, and the length of that.
    to_comp: u8,
    comp: u8,
    /// From there to its pin, and the length of that.
    to_pin: u8,
    pin: u8,
    /// From there up to and with its closing bracket.
    behind: u8,
}

/// How far it is from a place to another, if that is near.
fn distance(from: u32, to: u32) -> Option<u8>
    ensures { IfSome result (λ d. onward from d ≡ to) }
{
    u8::try_from(to.wrapping_sub(from)).ok()
}

/// The place so far after another.
fn onward(from: u32, distance: u8) -> u32
    ensures { result ≡ onward from distance }
{
    from.wrapping_add(u32::from(distance))
}

impl NearJoint {
    /// A joint after a place, if it is near.
    pub fn of(from: u32, joint: &Joint) -> Option<NearJoint>
        ensures { IfSome result (λ near. joint_behind from near ≡ joint.now) }
    {
        if joint.comp.quoted || joint.pin.quoted {
            return None;
        }
        Some(NearJoint {
            before: distance(from, joint.start)?,
            to_comp: distance(joint.start, joint.comp.start)?,
            comp: distance(joint.comp.start, joint.comp.end)?,
            to_pin: distance(joint.comp.end, joint.pin.start)?,
            pin: distance(joint.pin.start, joint.pin.end)?,
            behind: distance(joint.pin.end, joint.end)?,
        })
    }

    /// The joint that it is after a place.
    pub fn behind(self, from: u32) -> Joint
        ensures { result ≡ joint_behind from self }
    {
        let start = onward(from, self.before);
        let comp = word_at(onward(start, self.to_comp), self.comp);
        let pin = word_at(onward(comp.end, self.to_pin), self.pin);
        Joint {
            comp,
            pin,
            start,
            end: onward(pin.end, self.behind),
        }
    }
}

/// The word of a length at a place.
fn word_at(start: u32, length: u8) -> Word
    ensures { result ≡ record { start = start; end = onward start length; quoted = false } }
{
    Word {
        start,
        end: onward(start, length),
        quoted: false,
    }
}
