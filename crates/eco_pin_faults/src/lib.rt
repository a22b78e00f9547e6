//! Where the pins of a design stand: the first joint that names no pin, the first pin on two nets, and the first pattern on
//! a signal pin.
#![tactic(auto)]

mod design_pins;
mod faults;
mod first_nets;
mod first_place;
mod known_pins;
mod laws;
mod pattern;
mod place_test;
mod placed_pin;
mod side;
mod tops;
mod two_nets;
mod unknown;
mod words;

pub use crate::faults::{Pattern, TwoNets, UnknownPin};
pub use crate::laws::{
    differing_is, first_told, joints_known, none_wrong, one_net, pattern_is, reasons_found,
    tops_agree_is, unknown_is,
};
pub use crate::pattern::find_pattern;
pub use crate::tops::tops_agree;
pub use crate::two_nets::find_two_nets;
pub use crate::unknown::find_unknown_pin;
