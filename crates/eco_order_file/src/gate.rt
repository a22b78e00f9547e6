//! A gate that a spare is to serve as.

use crate::lists::NameList;
use eco_common::{Name, Point};
use eco_func::Table;
use std::marker::Model;

/// A gate that a spare is to serve as. It has a net for each input of its table, by its type.
#[derive(Debug, Drop)]
pub struct Gate {
    name: Name,
    table: Table,
    inputs: NameList,
    output: Name,
    near: Option<Point>,
}

impl Model for Gate {
    ghost use Rattle.eco_order_file.specs.Orders.{Gate as OneGate, IsWhole};

    ghost Value = { OneGate };

    ghost view = { λ g. record { name = g.name; table = g.table; inputs = g.inputs; output = g.output; near = g.near } };

    ghost invariant = { λ g. IsWhole (record { name = g.name; table = g.table; inputs = g.inputs; output = g.output; near = g.near }) };
}

impl Gate {
    ghost use Rattle.std.specs.Prelude.{◌≡◌, length};
    ghost use Rattle.eco_order_file.specs.Orders.{IsWhole, IsNear};

    /// The gate of these parts. The point's coordinates lie within i32.
    pub fn new(
        name: Name,
        table: Table,
        inputs: NameList,
        output: Name,
        near: Option<Point>,
    ) -> Gate
        requires inputs { length inputs ≡ table.inputs }
        requires near { IsNear near }
        ensures { result ≡ record { name = name; table = table; inputs = inputs; output = output; near = near } }
    {
        // No bit of a table stands past its last row, as this call says.
        let _bits = table.bits();
        Gate {
            name,
            table,
            inputs,
            output,
            near,
        }
    }

    /// Its name in its order.
    pub fn name(&self) -> &Name
        ensures { result.now ≡ self.now.name }
    {
        &self.name
    }

    /// Its table.
    pub fn table(&self) -> Table
        ensures value { result ≡ self.now.table }
        ensures whole { IsWhole self.now }
    {
        self.table
    }

    /// The net at each input, in the order of a row's bits.
    pub fn inputs(&self) -> &[Name]
        ensures value { result.now ≡ self.now.inputs }
        ensures whole { IsWhole self.now }
    {
        self.inputs.as_slice()
    }

    /// The net at its output.
    pub fn output(&self) -> &Name
        ensures { result.now ≡ self.now.output }
    {
        &self.output
    }

    /// The point that it should be near.
    pub fn near(&self) -> Option<Point>
        ensures value { result ≡ self.now.near }
        ensures whole { IsWhole self.now }
    {
        self.near
    }
}
