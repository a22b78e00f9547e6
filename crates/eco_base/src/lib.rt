//! The frozen base of a taped-out chip: opened from its four texts, with its tie nets and its stock of spare cells, or
//! refused with its first fault.
#![tactic(auto)]

mod base;
mod census;
mod constant;
mod crossing;
mod digest;
mod fault;
mod finding;
mod free_stock;
mod idle;
mod joining;
mod laws;
mod opening;
mod reading;
mod sources;
mod stock;
mod stock_laws;
mod stock_removal;
mod stocked;
mod stocking;
mod texts;
mod ties;

pub use crate::base::Base;
pub use crate::census::Census;
pub use crate::fault::BaseFault;
pub use crate::finding::find_stock;
pub use crate::free_stock::FreeStock;
pub use crate::laws::open_is_base;
pub use crate::opening::open_base;
pub use crate::stock::{Spare, Stock};
pub use crate::stock_laws::{stock_drives_nothing, stock_in_words, tie_nets_are_constant};
pub use crate::stock_removal::without_stock;
pub use crate::ties::is_tied;
pub use eco_overlay::{MoveFault, NewJoint, Overlay, emit, emit_len, move_joint};
