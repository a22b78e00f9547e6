//! Change orders, as engineers write them.

use crate::lists::{GateList, MoveList, NameList};
use eco_common::Name;
use std::marker::Model;

/// A pin that goes from the net that it is on, if it is on one, to another.
#[derive(Debug, Drop)]
pub struct Move {
    pub comp: Name,
    pub pin: Name,
    pub from_net: Option<Name>,
    pub to_net: Name,
}

impl Model for Move {
    ghost use Rattle.eco_order_file.specs.Orders.{Move as OneMove};

    ghost Value = { OneMove };

    ghost view = { λ m. record { comp = m.comp; pin = m.pin; from = m.from_net; to = m.to_net } };
}

/// A change order: new nets, gates that spares are to serve as, and moved pins.
#[derive(Debug, Drop)]
pub struct Order {
    pub name: Name,
    /// Who orders it.
    pub by: Name,
    pub nets: NameList,
    pub gates: GateList,
    pub moves: MoveList,
}

impl Model for Order {
    ghost use Rattle.eco_order_file.specs.Orders.{Order as OneOrder};

    ghost Value = { OneOrder };

    ghost view = { λ o. record { name = o.name; by = o.by; nets = o.nets; gates = o.gates; moves = o.moves } };
}
