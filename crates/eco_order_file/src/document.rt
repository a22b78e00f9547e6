//! Orders of JSON values.

ghost use Rattle.std.specs.Prelude.{◌≡◌, Ok, Err, Some};
ghost use Rattle.serde_json.specs.Find.{as_object};
ghost use Rattle.serde_json.specs.View.{view, members_view};
ghost use Rattle.eco_order_file.specs.Given.{Gives};
ghost use Rattle.eco_order_file.specs.Documents.{order as order_said};

use crate::fault::{FieldFault, bad_itself};
use crate::fields::{missing, other_field, text_field, texts_field};
use crate::gates::gates_field;
use crate::moves::moves_field;
use crate::order::Order;
use serde_json::{Map, Value};
use std::alloc::Global;

/// The order of an object's fields.
fn order_of(alloc: Global, value: &Value, object: &Map<String, Value>) -> Result<Order, FieldFault>
    requires { as_object (view value.now) ≡ Some (members_view object.now.entries) }
    ensures { Gives (λ o. o) (order_said (view value.now)) result }
{
    let name = text_field(alloc, value, "name")?;
    let by = text_field(alloc, value, "by")?;
    let nets = texts_field(alloc, value, "nets")?;
    let gates = gates_field(alloc, value, "gates")?;
    let moves = moves_field(alloc, value, "moves")?;
    match other_field(object, &["name", "by", "nets", "gates", "moves"]) {
        Some(other) => Err(missing(alloc, other)),
        None => Ok(Order {
            name,
            by,
            nets,
            gates,
            moves,
        }),
    }
}

/// An order.
pub fn order(alloc: Global, value: &Value) -> Result<Order, FieldFault>
    ensures { Gives (λ o. o) (order_said (view value.now)) result }
{
    match value.as_object() {
        Some(object) => order_of(alloc, value, object),
        None => Err(bad_itself(alloc)),
    }
}
