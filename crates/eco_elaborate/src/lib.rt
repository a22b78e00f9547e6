//! The netlist of a design: what it is, how it is listed, and what becomes of it where pins are put on other nets.
#![tactic(auto)]

mod centres;
mod fault;
mod found_pins;
mod joined_pin;
mod joined_pins;
mod laws;
mod listed_comps;
mod listed_nets;
mod listed_tops;
mod listing;
mod macros;
mod stated_joint;
mod supplies;

pub use crate::fault::DesignFault;
pub use crate::laws::{
    apart_is, can_join_is, components_stay, issued_is, issued_reads_back, netlist_is,
    netlist_well_formed, none_unnamed, nothing_moves, own_text, places_are_centres, read_once,
    rewired_is, still_consistent, still_well_formed, two_valued_is,
};
pub use crate::listing::list_numbered;
pub use crate::macros::Macros;
pub use crate::supplies::first_two_valued;
