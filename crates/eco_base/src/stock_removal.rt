//! The netlist of the base: without its stock.

ghost use Rattle.std.specs.Prelude.{◌≡◌, map, IfOk, OnOk};
ghost use Rattle.std.specs.FinSet.{from_list, empty};
ghost use Rattle.eco_net.specs.Netlist.{IsNet, IsWellFormed};
ghost use Rattle.eco_net.specs.Listing.{netlist};
ghost use Rattle.eco_net.specs.Changes.{with_tie_net};
ghost use Rattle.eco_base.specs.Found.{is_stock_row, stock_rows, place_in_row, place_of_spare};
ghost use Rattle.eco_base.specs.Order.{without_stock_rows, HasSameOrder};
ghost use Rattle.eco_base.specs.Without.{spare_names, with_ties, without_spares};

use crate::stock::{Spare, Stock};
use eco_common::Memory;
use eco_desk_file::DeskFile;
use eco_net::{Netlist, NetlistMaker};
use std::alloc::Global;

/// Reserves the names of the spares.
fn reserve_all(alloc: Global, maker: &mut NetlistMaker, spares: &[Spare]) -> Result<(), Memory>
    requires { (netlist maker.old).reserved ≡ empty }
    ensures named { OnOk result (netlist maker.new ≡ record (netlist maker.old) { reserved = from_list (spare_names spares.now) }) }
    ensures order { OnOk result (HasSameOrder maker.old maker.new) }
{
    for spare in spares {
        maker.reserve_name(alloc, spare.name.bytes())?;
    }
    Ok(())
}

/// Marks a tie net.
fn mark(maker: &mut NetlistMaker, name: &[u8])
    requires { IsNet (netlist maker.old) name.now }
    ensures named { netlist maker.new ≡ with_tie_net (netlist maker.old) name.now }
    ensures order { HasSameOrder maker.old maker.new }
{
    if let Some(net) = maker.find_net(name) {
        maker.mark_tie(net);
    }
}

/// Marks the two tie nets of the desk file.
fn mark_ties(maker: &mut NetlistMaker, desk: &DeskFile)
    requires none { (netlist maker.old).ties ≡ empty }
    requires high { IsNet (netlist maker.old) desk.now.high }
    requires low { IsNet (netlist maker.old) desk.now.low }
    ensures named { netlist maker.new ≡ with_ties (netlist maker.old) desk.now }
    ensures order { HasSameOrder maker.old maker.new }
{
    mark(maker, desk.high().bytes());
    mark(maker, desk.low().bytes());
}

/// The netlist of the base: the stock that `find_stock` found is taken out, its names are reserved, and the two tie nets are
/// marked. What is left keeps its order, and is numbered anew.
pub fn without_stock(
    alloc: Global,
    full: NetlistMaker,
    desk: &DeskFile,
    stock: &Stock,
) -> Result<Netlist, Memory>
    requires no_ties { (netlist full).ties ≡ empty }
    requires no_reserved { (netlist full).reserved ≡ empty }
    requires high { IsNet (netlist full) desk.now.high }
    requires low { IsNet (netlist full) desk.now.low }
    requires marks { stock.now.marks.items ≡ map (is_stock_row desk.now full.nets) full.comps }
    requires rows { map place_of_spare stock.now.spares.items ≡ map place_in_row (stock_rows desk.now full) }
    ensures base { IfOk result (λ n. netlist n ≡ without_spares (netlist full) desk.now (spare_names stock.now.spares.items)) }
    ensures whole { IfOk result (λ n. IsWellFormed (netlist n)) }
    ensures order { IfOk result (HasSameOrder (without_stock_rows desk.now full)) }
{
    let mut maker = full.without(alloc, &stock.marks)?;
    reserve_all(alloc, &mut maker, &stock.spares)?;
    mark_ties(&mut maker, desk);
    maker.finish(alloc)
}
