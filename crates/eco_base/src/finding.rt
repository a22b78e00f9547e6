//! Finding the stock.

ghost use Rattle.std.specs.Prelude.{◌≡◌, ◌<◌, ◌++◌, Some, IsSome, map, length, slice_get, count_by, IfOk, OnOk, option_to_list};
ghost use Rattle.std.specs.List.{All, filter};
ghost use Rattle.eco_base.specs.Found.{is_stock_row, is_skipped_row, stock_rows, place_in_row, place_of_spare, AreNumbered};
ghost use Rattle.eco_base.specs.SparePoints.{point_at, HasPoint, ArePlacedAlike};

use crate::idle::{is_skipped, is_stock, stock_place};
use crate::stock::{Spare, Stock};
use eco_common::{Memory, Name, Point};
use eco_def::Comp;
use eco_desk_file::DeskFile;
use eco_net::{CompId, NetlistMaker};
use std::alloc::Global;

/// For each component, whether it is stock.
fn marks_of(alloc: Global, net: &NetlistMaker, desk: &DeskFile) -> Result<Vec<bool>, Memory>
    ensures { IfOk result (λ marks. marks.items ≡ map (is_stock_row desk.now net.now.nets) net.now.comps) }
{
    let mut marks = Vec::new(alloc);
    for comp in 0..net.counts().comps {
        marks.push(is_stock(net, desk, CompId(comp)))?;
    }
    Ok(marks)
}

/// How many spare-named components aren't stock.
fn count_skipped(net: &NetlistMaker, desk: &DeskFile) -> u32
    ensures { result ≡ count_by (is_skipped_row desk.now net.now.nets) net.now.comps }
{
    let mut skipped = 0;
    for comp in 0..net.counts().comps {
        skipped += u32::from(is_skipped(net, desk, CompId(comp)));
    }
    skipped
}

/// The placement point of a component that is placed.
fn point_of(comps: &[Comp], comp: u32) -> Point
    requires { IsSome (point_at comps.now comp) }
    ensures { point_at comps.now comp ≡ Some result }
{
    match comps.get(comp as usize) {
        Some(
            Comp {
                place: Some(place),
                ..
            },
        ) => place.point,
        _ => unreachable!(),
    }
}

/// Adds a component to the spares that were found so far, if it is stock.
fn add_stock(
    alloc: Global,
    net: &NetlistMaker,
    desk: &DeskFile,
    comps: &[Comp],
    comp: u32,
    spares: &mut Vec<Spare>,
) -> Result<(), Memory>
    requires within { comp < length net.now.comps }
    requires placed { ArePlacedAlike net.now.comps comps.now }
    ensures rows { OnOk result (map place_of_spare spares.new.items ≡ map place_of_spare spares.old.items ++ map place_in_row (filter (is_stock_row desk.now net.now.nets) (option_to_list (slice_get net.now.comps comp)))) }
    ensures numbers { OnOk result (AreNumbered net.now spares.old.items → AreNumbered net.now spares.new.items) }
    ensures points { OnOk result (All (HasPoint comps.now) spares.old.items → All (HasPoint comps.now) spares.new.items) }
{
    let Some(centre) = stock_place(net, desk, CompId(comp)) else {
        return Ok(());
    };
    let name = Name::of(alloc, net.comp_name(CompId(comp)))?;
    let point = point_of(comps, comp);
    spares.push(Spare {
        name,
        point,
        centre,
        comp,
    })?;
    Ok(())
}

/// The spares of the stock.
fn spares_of(
    alloc: Global,
    net: &NetlistMaker,
    desk: &DeskFile,
    comps: &[Comp],
) -> Result<Vec<Spare>, Memory>
    requires { ArePlacedAlike net.now.comps comps.now }
    ensures rows { IfOk result (λ spares. map place_of_spare spares.items ≡ map place_in_row (stock_rows desk.now net.now)) }
    ensures numbers { IfOk result (λ spares. AreNumbered net.now spares.items) }
    ensures points { IfOk result (λ spares. All (HasPoint comps.now) spares.items) }
{
    let mut spares = Vec::new(alloc);
    for comp in 0..net.counts().comps {
        add_stock(alloc, net, desk, comps, comp, &mut spares)?;
    }
    Ok(spares)
}

/// The stock: each component that is spare-named, placed and a gate with every input on one of the two tie nets and every
/// output unconnected. Other spare-named components are counted as skipped. The components are those of the design, by the same
/// numbers.
pub fn find_stock(
    alloc: Global,
    net: &NetlistMaker,
    desk: &DeskFile,
    comps: &[Comp],
) -> Result<Stock, Memory>
    requires { ArePlacedAlike net.now.comps comps.now }
    ensures rows { IfOk result (λ stock. map place_of_spare stock.spares.items ≡ map place_in_row (stock_rows desk.now net.now)) }
    ensures numbers { IfOk result (λ stock. AreNumbered net.now stock.spares.items) }
    ensures points { IfOk result (λ stock. All (HasPoint comps.now) stock.spares.items) }
    ensures marks { IfOk result (λ stock. stock.marks.items ≡ map (is_stock_row desk.now net.now.nets) net.now.comps) }
    ensures skipped { IfOk result (λ stock. stock.skipped ≡ count_by (is_skipped_row desk.now net.now.nets) net.now.comps) }
{
    let marks = marks_of(alloc, net, desk)?;
    let spares = spares_of(alloc, net, desk, comps)?;
    Ok(Stock {
        spares,
        marks,
        skipped: count_skipped(net, desk),
    })
}
