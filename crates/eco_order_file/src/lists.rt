//! Lists in orders, seen as lists.

use crate::gate::Gate;
use crate::order::Move;
use eco_common::Name;
use std::marker::Model;

/// Names, in order.
#[derive(Debug, Drop)]
pub struct NameList {
    items: Vec<Name>,
}

impl Model for NameList {
    ghost use Rattle.std.specs.Prelude.{List, ℕ};

    ghost Value = { List (List ℕ) };

    ghost view = { λ n. n.items.items };
}

impl NameList {
    ghost use Rattle.std.specs.Prelude.{◌≡◌};

    /// The list of these names.
    pub fn of(items: Vec<Name>) -> NameList
        ensures { result ≡ items.items }
    {
        NameList { items }
    }

    /// The names, in order.
    pub fn as_slice(&self) -> &[Name]
        ensures { result.now ≡ self.now }
    {
        &self.items
    }

    /// The names themselves. It takes no memory.
    pub fn into_vec(self) -> Vec<Name>
        ensures { result.items ≡ self }
    {
        self.items
    }
}

/// Gates, in order.
#[derive(Debug, Drop)]
pub struct GateList {
    items: Vec<Gate>,
}

impl Model for GateList {
    ghost use Rattle.std.specs.Prelude.{List};
    ghost use Rattle.eco_order_file.specs.Orders.{Gate as OneGate};

    ghost Value = { List OneGate };

    ghost view = { λ n. n.items.items };
}

impl GateList {
    ghost use Rattle.std.specs.Prelude.{◌≡◌};

    /// The list of these gates.
    pub fn of(items: Vec<Gate>) -> GateList
        ensures { result ≡ items.items }
    {
        GateList { items }
    }

    /// The gates, in order.
    pub fn as_slice(&self) -> &[Gate]
        ensures { result.now ≡ self.now }
    {
        &self.items
    }

    /// The gates themselves. It takes no memory.
    pub fn into_vec(self) -> Vec<Gate>
        ensures { result.items ≡ self }
    {
        self.items
    }
}

/// Moves, in order.
#[derive(Debug, Drop)]
pub struct MoveList {
    items: Vec<Move>,
}

impl Model for MoveList {
    ghost use Rattle.std.specs.Prelude.{List};
    ghost use Rattle.eco_order_file.specs.Orders.{Move as OneMove};

    ghost Value = { List OneMove };

    ghost view = { λ n. n.items.items };
}

impl MoveList {
    ghost use Rattle.std.specs.Prelude.{◌≡◌};

    /// The list of these moves.
    pub fn of(items: Vec<Move>) -> MoveList
        ensures { result ≡ items.items }
    {
        MoveList { items }
    }

    /// The moves, in order.
    pub fn as_slice(&self) -> &[Move]
        ensures { result.now ≡ self.now }
    {
        &self.items
    }

    /// The moves themselves. It takes no memory.
    pub fn into_vec(self) -> Vec<Move>
        ensures { result.items ≡ self }
    {
        self.items
    }
}
