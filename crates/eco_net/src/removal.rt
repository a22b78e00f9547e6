//! Taking components out of a netlist that is being listed.

ghost use Rattle.std.specs.Prelude.{◌≡◌, ◌<◌, ◌^◌, [], ◌∷◌, ◌++◌, length, map, IfOk, OnOk, if◌then◌else◌};
ghost use Rattle.eco_net.specs.Listing.{Listing, AreDistinctNames, netlist};
ghost use Rattle.eco_net.specs.Kept.{IsIndexOf};
ghost use Rattle.eco_net.specs.Removal.{unmarked_rows, marked_names, without_comps};

use crate::index::NameIndex;
use crate::maker::NetlistMaker;
use crate::rows::CompRow;
use eco_common::Memory;
use std::alloc::Global;

/// Adds a component, unless it is marked.
fn add_unmarked(left: &mut Vec<CompRow>, row: CompRow, marked: bool) -> Result<(), Memory>
    ensures { OnOk result (left.new.items ≡ left.old.items ++ (if marked then [] else row ∷ [])) }
{
    if !marked {
        left.push(row)?;
    }
    Ok(())
}

/// The components that are not marked.
fn unmarked(alloc: Global, comps: Vec<CompRow>, marks: &[bool]) -> Result<Vec<CompRow>, Memory>
    ensures { IfOk result (λ left. left.items ≡ unmarked_rows marks.now comps.items) }
{
    let mut left = Vec::with_capacity(alloc, comps.len())?;
    for (marked, row) in marks.iter().zip(comps) {
        add_unmarked(&mut left, row, *marked)?;
    }
    Ok(left)
}

/// The place of each component by its name.
fn index_of(alloc: Global, comps: &[CompRow]) -> Result<NameIndex, Memory>
    requires few { length comps.now < 2 ^ 32 }
    requires apart { AreDistinctNames (map (λ r. r.name) comps.now) }
    ensures { IfOk result (λ index. IsIndexOf (map (λ r. r.name) comps.now) index) }
{
    let mut index = NameIndex::with_capacity(alloc, comps.len())?;
    for (place, row) in comps.iter().enumerate() {
        index.insert(alloc, row.name.bytes(), place as u32)?;
    }
    Ok(index)
}

impl NetlistMaker {
    /// Takes out the components that are marked, by their numbers. Those that are left keep their order, and are
    /// numbered anew from 0. Nets, top pins and reserved names stay.
    pub fn without(self, alloc: Global, marks: &[bool]) -> Result<NetlistMaker, Memory>
        requires { length marks.now ≡ length self.comps }
        ensures rows { IfOk result (λ m. m ≡ record self { comps = unmarked_rows marks.now self.comps }) }
        ensures named { IfOk result (λ m. netlist m ≡ without_comps (netlist self) (marked_names marks.now self.comps)) }
    {
        let NetlistMaker {
            nets,
            comps,
            tops,
            reserved,
            net_places,
            comp_places: _,
            reserved_places,
        } = self;
        let comps = unmarked(alloc, comps, marks)?;
        let comp_places = index_of(alloc, &comps)?;
        Ok(NetlistMaker {
            nets,
            comps,
            tops,
            reserved,
            net_places,
            comp_places,
            reserved_places,
        })
    }
}
