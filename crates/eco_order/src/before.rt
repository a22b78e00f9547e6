//! The rules that an order can break before it is inserted.

ghost use Rattle.std.specs.Prelude.{◌≡◌, IfOk};
ghost use Rattle.eco_net.specs.Listing.{netlist};
ghost use Rattle.eco_order.specs.Broken.{broken_before as broken_before_of};

use crate::moves::{stock_pin, unknown_pin, wrong_from};
use crate::nets::{net_name_taken, unknown_net};
use crate::redriven::supply_driven;
use eco_common::Memory;
use eco_net::Netlist;
use eco_order_file::{Order, Rule, broken_alone};
use std::alloc::Global;

/// The first broken rule of 3 to 11.
pub fn broken_before(alloc: Global, net: &Netlist, order: &Order) -> Result<Option<Rule>, Memory>
    ensures { IfOk result (λ broken. broken ≡ broken_before_of (netlist net.now) order.now) }
{
    if let Some(rule) = broken_alone(alloc, order)? {
        return Ok(Some(rule));
    }
    if let Some(rule) = unknown_net(alloc, net, order)? {
        return Ok(Some(rule));
    }
    if let Some(rule) = unknown_pin(alloc, net, order)? {
        return Ok(Some(rule));
    }
    if let Some(rule) = wrong_from(alloc, net, order)? {
        return Ok(Some(rule));
    }
    if let Some(rule) = stock_pin(alloc, net, order)? {
        return Ok(Some(rule));
    }
    if let Some(rule) = supply_driven(alloc, net, order)? {
        return Ok(Some(rule));
    }
    net_name_taken(alloc, net, order)
}
