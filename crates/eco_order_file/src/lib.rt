//! Change orders: reading them from JSON texts, the rules that an order alone decides, and writing them.
//!
//! The texts are JSON (RFC 8259) as the kit's `serde_json` reads it, in the form of docs/FORMATS.md.
#![tactic(auto)]

mod document;
mod fault;
mod fields;
mod gate;
mod gates;
mod json;
mod keeping;
mod laws;
mod limits;
mod lists;
mod moves;
mod names;
mod order;
mod read;
mod refusal;
mod repeats;
mod rule;
mod text;
mod values;

pub use crate::gate::Gate;
pub use crate::keeping::broken_alone;
pub use crate::laws::{documents_say_orders, written_is_read};
pub use crate::limits::{
    MAX_GATE_INPUTS, MAX_LABEL_BYTES, MAX_NEW_NET_BYTES, MAX_ORDER_GATES, MAX_ORDER_MOVES,
    MAX_ORDER_NETS,
};
pub use crate::lists::{GateList, MoveList, NameList};
pub use crate::names::{can_be_new, is_label};
pub use crate::order::{Move, Order};
pub use crate::read::read_order;
pub use crate::refusal::rule_text;
pub use crate::rule::{Counted, OrderFault, Rule};
pub use crate::text::order_text;

#[cfg(test)]
mod tests;
