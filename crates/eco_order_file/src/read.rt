//! Texts of orders.

ghost use Rattle.std.specs.Prelude.{◌≡◌, None, Ok, Err, IfOk, IfErr};
ghost use Rattle.serde_json.specs.View.{view};
ghost use Rattle.eco_order_file.specs.Documents.{order as order_said};
ghost use Rattle.eco_order_file.specs.Orders.{IsInForm};
ghost use Rattle.eco_order_file.specs.Reading.{keeping, Answers, HasCause, Reads, reported as reported_of};
ghost use Rattle.eco_order_file.specs.Rules.{broken_alone as broken_alone_of};

use crate::document::order;
use crate::fault::FieldFault;
use crate::keeping::broken_alone;
use crate::order::Order;
use crate::rule::{OrderFault, Rule};
use eco_common::{Memory, Name};
use serde_json::Value;
use std::alloc::Global;

/// A path without its first dot.
fn reported(alloc: Global, path: &[u8]) -> Result<Name, Memory>
    ensures { IfOk result (λ n. n ≡ reported_of path.now) }
{
    match path {
        [_, rest @ ..] => Name::of(alloc, rest),
        [] => Name::of(alloc, path),
    }
}

/// The order that a JSON value says, or the first rule of 2 to 5 that it breaks.
fn order_of_value(alloc: Global, value: &Value) -> Result<Order, OrderFault>
    ensures { Answers (keeping (order_said (view value.now))) result }
{
    match order(alloc, value) {
        Ok(order) => match broken_alone(alloc, &order)? {
            Some(rule) => Err(OrderFault::Broken(rule)),
            None => Ok(order),
        },
        Err(FieldFault::Bad { path }) => {
            let path = reported(alloc, path.bytes())?;
            Err(OrderFault::Broken(Rule::BadField { path }))
        }
        Err(FieldFault::Memory) => Err(OrderFault::Memory),
    }
}

/// The order that a text says, or the first rule of 1 to 5 that it breaks.
pub fn read_order(alloc: Global, text: &[u8]) -> Result<Order, OrderFault>
    ensures reads { Reads text.now result }
    ensures cause { IfErr result (HasCause text.now) }
    ensures in_form { IfOk result IsInForm }
    ensures unbroken { IfOk result (λ order. broken_alone_of order ≡ None) }
{
    match Value::from_slice(alloc, text) {
        Ok(value) => order_of_value(alloc, &value),
        Err(error) => {
            if error.is_memory() {
                return Err(OrderFault::Memory);
            }
            Err(OrderFault::Broken(Rule::BadJson))
        }
    }
}
