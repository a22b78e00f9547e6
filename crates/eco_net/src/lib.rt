//! Netlists by names: what drives a net, where values come from and are seen, and what a netlist computes.
//!
//! A netlist is listed by `NetlistMaker`, which numbers nets, components and top pins in the order in which they are
//! added. The specifications speak of names; a listing says which name each number has.
#![tactic(auto)]

mod copies;
mod cut;
mod depth;
mod drivers;
mod evaluation;
mod gates;
mod ids;
mod index;
mod joints;
mod kind;
mod laws;
mod levels;
mod listed;
mod maker;
mod net_pins;
mod netlist;
mod observables;
mod pin_lists;
mod pins;
mod reading;
mod removal;
mod rows;
mod search;
mod short_name;
mod sinks;
mod walk;

pub use crate::cut::{CutKey, CutValues};
pub use crate::evaluation::Values;
pub use crate::ids::{CompId, Counts, FoundComp, NetId, PinRef, TopId};
pub use crate::kind::{BoxPin, BoxPins, Kind};
pub use crate::laws::{
    closed_walk_shows, each_choice, each_net, one_cut_key, one_depth, one_valuation, ranks_show,
};
pub use crate::levels::{Levels, LoopFault, Names};
pub use crate::maker::NetlistMaker;
pub use crate::netlist::{Netlist, PinName};
pub use crate::pin_lists::PinLists;
pub use crate::rows::{CompRow, NetRow, TopRow};
