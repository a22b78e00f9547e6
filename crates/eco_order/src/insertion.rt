//! An order put into a netlist.

ghost use Rattle.std.specs.Prelude.{◌≡◌, ◌≤◌, ◌+◌, length, None, IfOk};
ghost use Rattle.eco_net.specs.Listing.{netlist};
ghost use Rattle.eco_order.specs.Broken.{broken_before};
ghost use Rattle.eco_order.specs.Insert.{patch, IsFreeLabel};
ghost use Rattle.eco_patch_laws.specs.Insertion.{inserted};

use crate::gates::add_gates;
use crate::joints::{add_nets, make_moves};
use eco_common::{MAX_LISTED_COMPS, MAX_LISTED_NETS, Memory};
use eco_net::{Netlist, NetlistMaker};
use eco_order_file::{MAX_ORDER_GATES, MAX_ORDER_NETS, Order};
use std::alloc::Global;

/// The netlist with an order that breaks no rule of 3 to 11: its new nets, its moves made, and its gates, unplaced, with
/// names that begin with the label and a blank.
pub fn insert(alloc: Global, net: &Netlist, label: &[u8], order: &Order) -> Result<Netlist, Memory>
    requires unbroken { broken_before (netlist net.now) order.now ≡ None }
    requires free_label { IsFreeLabel (netlist net.now) label.now }
    requires few_nets { length net.now.nets + MAX_ORDER_NETS ≤ MAX_LISTED_NETS }
    requires few_comps { length net.now.comps + MAX_ORDER_GATES ≤ MAX_LISTED_COMPS }
    ensures { IfOk result (λ patched. netlist patched ≡ inserted label.now (λ g. None) (netlist net.now) (patch order.now)) }
{
    let mut maker = NetlistMaker::of(alloc, net)?;
    add_nets(alloc, &mut maker, order.nets.as_slice())?;
    make_moves(&mut maker, order.moves.as_slice())?;
    add_gates(alloc, &mut maker, label, order.gates.as_slice())?;
    Ok(maker.finish(alloc)?)
}
