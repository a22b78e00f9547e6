//! The text of an order.

ghost use Rattle.std.specs.Prelude.{◌≡◌, IfOk, Ok, None};
ghost use Rattle.serde_json.specs.Written.{compact_text};
ghost use Rattle.eco_order_file.specs.Orders.{HasBaseNames};
ghost use Rattle.eco_order_file.specs.OrderValues.{order_value as order_value_of};
ghost use Rattle.eco_order_file.specs.Reading.{Reads};
ghost use Rattle.eco_order_file.specs.Rules.{broken_alone};

use crate::json::order_value;
use crate::order::Order;
use eco_common::Memory;
use std::alloc::Global;

/// The compact text of an order. The text of one that keeps rules 2 to 5 says that order again.
pub fn order_text(alloc: Global, order: &Order) -> Result<Vec<u8>, Memory>
    ensures text { IfOk result (λ t. t.items ≡ compact_text (order_value_of order.now)) }
    ensures reads_back { HasBaseNames order.now → broken_alone order.now ≡ None → IfOk result (λ t. Reads t.items (Ok order.now)) }
{
    let value = order_value(alloc, order)?;
    Ok(value.to_vec(alloc)?)
}
