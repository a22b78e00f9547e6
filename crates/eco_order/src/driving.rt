//! Rule 12: which nets have to have exactly one driving pin.

ghost use Rattle.std.specs.Prelude.{◌≡◌, ◌==◌, Some, length, IfOk};
ghost use Rattle.std.specs.List.{list_any};
ghost use Rattle.eco_net.specs.Listing.{netlist};
ghost use Rattle.eco_net.specs.Netlist.{IsNet};
ghost use Rattle.eco_net.specs.SinksOf.{ArePinLists};
ghost use Rattle.eco_order.specs.Deciding.{Tells, leaves as leaves_net};
ghost use Rattle.eco_order.specs.DrivenOnce.{IsDrivenOnce};
ghost use Rattle.eco_order.specs.Insert.{patched as patched_by};
ghost use Rattle.eco_order.specs.Rules.{is_same};

use crate::redriven::moves_output;
use eco_common::{Memory, Name};
use eco_net::{Netlist, PinLists, PinRef};
use eco_order_file::{Move, Order};
use std::alloc::Global;

fn is_from(from: &Option<Name>, name: &[u8]) -> bool
    ensures { result ≡ is_same from.now (Some name.now) }
{
    match from {
        Some(from) => from.bytes() == name,
        None => false,
    }
}

fn leaves(net: &Netlist, moved: &Move, name: &[u8]) -> bool
    ensures { result ≡ leaves_net (netlist net.now) name.now moved.now }
{
    moves_output(net, moved) && is_from(&moved.from_net, name)
}

/// Whether a moved OUTPUT pin comes from a net.
fn is_left(net: &Netlist, moves: &[Move], name: &[u8]) -> bool
    ensures { result ≡ list_any (leaves_net (netlist net.now) name.now) moves.now }
{
    for moved in moves {
        if leaves(net, moved, name) {
            return true;
        }
    }
    false
}

fn are_none(pins: &[PinRef]) -> bool
    ensures { result ≡ (length pins.now == 0) }
{
    pins.is_empty()
}

/// Whether a net of the patched netlist has exactly one driving pin, or needs none, since a moved OUTPUT pin left it
/// without any pin. The lists are those of the patched netlist.
pub fn is_driven_once(
    alloc: Global,
    net: &Netlist,
    order: &Order,
    patched: &Netlist,
    lists: &PinLists,
    name: &[u8],
) -> Result<bool, Memory>
    requires patched { netlist patched.now ≡ patched_by (netlist net.now) order.now }
    requires lists { ArePinLists patched.now lists.now }
    requires known { IsNet (netlist patched.now) name.now }
    ensures { IfOk result (λ once. Tells once (IsDrivenOnce (netlist net.now) order.now name.now)) }
{
    patched.facts();
    let Some(number) = patched.find_net(name) else {
        unreachable!()
    };
    if let Some(_) = patched.driver(number) {
        return Ok(true);
    }
    if !is_left(net, order.moves.as_slice(), name) {
        return Ok(false);
    }
    let pins = patched.sinks_in(alloc, lists, number)?;
    Ok(are_none(&pins))
}
