//! A joint of a component's pin, with its net.

use eco_net::NetId;
use eco_text::Word;

/// A joint of a component's pin, by its words, and the number of the net that it puts the pin on.
#[derive(Clone, Copy, Debug, Drop, PartialEq, Eq)]
pub struct StatedJoint {
    pub comp: Word,
    pub pin: Word,
    pub net: NetId,
}
