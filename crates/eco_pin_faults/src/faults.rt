//! What is wrong with the pins of a design.

use eco_common::Name;

/// A joint that names no component, no pin of its macro or no top pin.
#[derive(Debug, Drop)]
pub struct UnknownPin {
    pub net: Name,
    /// Where the joint's `(` stands.
    pub place: u32,
}

/// A pin that stands on two nets.
#[derive(Debug, Drop)]
pub struct TwoNets {
    /// `comp/pin`, where a top pin has `PIN` as `comp`.
    pub pin: Name,
    /// The net at the pin's first place.
    pub first: Name,
    /// The first other net.
    pub second: Name,
}

/// A joint `( * pin )` in SPECIALNETS of a pin that isn't supply.
#[derive(Debug, Drop)]
pub struct Pattern {
    pub net: Name,
    pub pin: Name,
}
