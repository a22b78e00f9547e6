//! The tie nets and the stock of a base, and its netlist without the stock.

ghost use Rattle.std.specs.Prelude.{◌≡◌, ◌≤◌, true, false, Some, IsSome, map, length, IfOk, IfErr, OnOk};
ghost use Rattle.std.specs.List.{All};
ghost use Rattle.eco_net.specs.Listing.{netlist};
ghost use Rattle.eco_net.specs.Depth.{IsDepth};
ghost use Rattle.eco_net.specs.Walks.{IsLoopFree, IsClosedWalk};
ghost use Rattle.eco_base.specs.Ties.{tie_name, IsTieNet};
ghost use Rattle.eco_base.specs.Joined.{IsJoined};
ghost use Rattle.eco_base.specs.Stocks.{entry_at};
ghost use Rattle.eco_base.specs.Opened.{IsFirstOf};
ghost use Rattle.eco_base.specs.Stocked.{BlamesTie, BlamesTies, BlamesCount, BlamesLoop, IsStocked};

use crate::census::census_of;
use crate::fault::BaseFault;
use crate::stocked::Stocked;
use crate::texts::Texts;
use crate::{Spare, Stock, find_stock, is_tied, without_stock};
use eco_common::{MAX_STOCK, Memory, Name};
use eco_desk_file::DeskFile;
use eco_func::MasterFn;
use eco_net::{LoopFault, Netlist, NetlistMaker};
use eco_text::bytes_at;
use std::alloc::Global;

/// The fault of a tie net.
fn tie_fault(alloc: Global, net: &Name) -> BaseFault
    ensures { BlamesTie net.now result }
{
    match net.copy(alloc) {
        Ok(net) => BaseFault::TieNotConstant { net },
        Err(_) => BaseFault::Memory,
    }
}

/// Refuses a tie net that doesn't have its value, the one of `tie_high` first.
fn check_ties(alloc: Global, net: &NetlistMaker, desk: &DeskFile) -> Result<(), BaseFault>
    ensures high { OnOk result (IsTieNet desk.now.prefixes (netlist net.now) desk.now.high true) }
    ensures low { OnOk result (IsTieNet desk.now.prefixes (netlist net.now) desk.now.low false) }
    ensures fault { IfErr result (BlamesTies desk.now (netlist net.now)) }
{
    let high = is_tied(alloc, net, desk, true)?;
    if !high {
        return Err(tie_fault(alloc, desk.high()));
    }
    let low = is_tied(alloc, net, desk, false)?;
    if !low {
        return Err(tie_fault(alloc, desk.low()));
    }
    Ok(())
}

/// Refuses a stock of more than 32,768 spares.
fn check_count(spares: &[Spare]) -> Result<(), BaseFault>
    ensures few { OnOk result (length spares.now ≤ MAX_STOCK) }
    ensures fault { IfErr result (BlamesCount (length spares.now)) }
{
    let count = spares.len();
    if count <= MAX_STOCK {
        return Ok(());
    }
    Err(BaseFault::TooMuchStock { count })
}

/// The greatest depth of a gate of a netlist. Refuses a netlist in which a signal runs in a circle.
fn depth_of(alloc: Global, net: &Netlist) -> Result<u32, BaseFault>
    ensures free { OnOk result (IsLoopFree (netlist net.now)) }
    ensures depth { IfOk result (IsDepth (netlist net.now)) }
    ensures fault { IfErr result (BlamesLoop (netlist net.now)) }
{
    match net.levels(alloc) {
        Ok(levels) => Ok(levels.depth()),
        Err(LoopFault::Loop { nets }) => Err(BaseFault::Loop { nets }),
        Err(LoopFault::Memory) => Err(BaseFault::Memory),
    }
}

/// What a component computes, by its number in the design: its master's entry in the functions file, which has one.
fn function_of(texts: &Texts, comp: u32) -> Result<MasterFn, Memory>
    requires { IsSome (entry_at texts.now comp) }
    ensures { IfOk result (λ f. entry_at texts.now comp ≡ Some f) }
{
    let comps = texts.design().comps.as_slice();
    let model = bytes_at(texts.text(), comps[comp as usize].model);
    match texts.functions().find(model) {
        Some(master) => Ok(master.copy()?),
        None => unreachable!(),
    }
}

/// What each spare computes.
fn functions_of(alloc: Global, texts: &Texts, spares: &[Spare]) -> Result<Vec<MasterFn>, Memory>
    requires { All (λ s. IsSome (entry_at texts.now s.comp)) spares.now }
    ensures { IfOk result (λ fs. map (λ f. Some f) fs.items ≡ map (λ s. entry_at texts.now s.comp) spares.now) }
{
    let mut functions = Vec::with_capacity(alloc, spares.len())?;
    for spare in spares {
        functions.push(function_of(texts, spare.comp)?)?;
    }
    Ok(functions)
}

/// Takes the stock out of the netlist of all components.
///
/// Refuses a tie net that isn't one, too much stock, and a loop in what is left, in this order.
pub fn take_stock(alloc: Global, texts: &Texts, full: NetlistMaker) -> Result<Stocked, BaseFault>
    requires { IsJoined texts.now full }
    ensures stocked { IfOk result (IsStocked texts.now) }
    ensures fault { IfErr result (IsFirstOf texts.now) }
{
    let desk = texts.desk();
    full.facts();
    check_ties(alloc, &full, desk)?;
    let comps = texts.design().comps.as_slice();
    let stock = find_stock(alloc, &full, desk, comps)?;
    check_count(&stock.spares)?;
    let functions = functions_of(alloc, texts, &stock.spares)?;
    let census = census_of(&full, &stock);
    let netlist = without_stock(alloc, full, desk, &stock)?;
    let depth = depth_of(alloc, &netlist)?;
    let Stock {
        spares,
        marks: _,
        skipped,
    } = stock;
    Ok(Stocked {
        netlist,
        spares,
        functions,
        skipped,
        census,
        depth,
    })
}
