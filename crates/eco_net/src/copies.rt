//! A maker that goes on from a netlist.

ghost use Rattle.std.specs.Prelude.{◌≡◌, IfOk};
ghost use Rattle.eco_net.specs.Listing.{Listing};

use crate::maker::NetlistMaker;
use crate::netlist::Netlist;
use crate::rows::{CompRow, NetRow, TopRow};
use eco_common::{Memory, Name};
use std::alloc::Global;

/// The same nets.
fn copied_nets(alloc: Global, rows: &[NetRow]) -> Result<Vec<NetRow>, Memory>
    ensures { IfOk result (λ copied. copied.items ≡ rows.now) }
{
    let mut copied = Vec::with_capacity(alloc, rows.len())?;
    for row in rows {
        copied.push(row.copy(alloc)?)?;
    }
    Ok(copied)
}

/// The same components.
fn copied_comps(alloc: Global, rows: &[CompRow]) -> Result<Vec<CompRow>, Memory>
    ensures { IfOk result (λ copied. copied.items ≡ rows.now) }
{
    let mut copied = Vec::with_capacity(alloc, rows.len())?;
    for row in rows {
        copied.push(row.copy(alloc)?)?;
    }
    Ok(copied)
}

/// The same top pins.
fn copied_tops(alloc: Global, rows: &[TopRow]) -> Result<Vec<TopRow>, Memory>
    ensures { IfOk result (λ copied. copied.items ≡ rows.now) }
{
    let mut copied = Vec::with_capacity(alloc, rows.len())?;
    for row in rows {
        copied.push(row.copy(alloc)?)?;
    }
    Ok(copied)
}

/// The same names.
fn copied_names(alloc: Global, names: &[Name]) -> Result<Vec<Name>, Memory>
    ensures { IfOk result (λ copied. copied.items ≡ names.now) }
{
    let mut copied = Vec::with_capacity(alloc, names.len())?;
    for name in names {
        copied.push(name.copy(alloc)?)?;
    }
    Ok(copied)
}

impl NetlistMaker {
    /// A maker that holds what a netlist holds, with the same numbers.
    pub fn of(alloc: Global, net: &Netlist) -> Result<NetlistMaker, Memory>
        ensures { IfOk result (λ m. m ≡ net.now) }
    {
        let listed = &net.listed;
        Ok(NetlistMaker {
            nets: copied_nets(alloc, &listed.nets)?,
            comps: copied_comps(alloc, &listed.comps)?,
            tops: copied_tops(alloc, &listed.tops)?,
            reserved: copied_names(alloc, &listed.reserved)?,
            net_places: listed.net_places.copy()?,
            comp_places: listed.comp_places.copy()?,
            reserved_places: listed.reserved_places.copy()?,
        })
    }
}

impl Netlist {
    /// A maker that holds what the netlist held, with the same numbers. Nothing is copied.
    pub fn into_maker(self) -> NetlistMaker
        ensures { result ≡ self }
    {
        let Netlist { listed, driving: _ } = self;
        listed
    }
}
