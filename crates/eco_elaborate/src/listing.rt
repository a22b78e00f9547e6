//! Listing the netlist of a design.

ghost use Rattle.std.specs.Prelude.{◌≡◌, map, IfOk, IfErr};
ghost use Rattle.eco_def.specs.Named.{names_of};
ghost use Rattle.eco_def.specs.View.{design_in};
ghost use Rattle.eco_def.specs.Sections.{IsReadingOf};
ghost use Rattle.eco_net.specs.Listing.{comp_names};
ghost use Rattle.eco_elaborate.specs.Building.{Lists};
ghost use Rattle.eco_elaborate.specs.Stated.{named_comps};
ghost use Rattle.eco_elaborate.specs.Stages.{supply_value, NetsListed, PartsListed, MacroFault};

use crate::fault::DesignFault;
use crate::found_pins::find_pins;
use crate::joined_pins::join_pins;
use crate::listed_comps::add_comps;
use crate::listed_nets::{add_pin_nets, add_stated_nets};
use crate::listed_tops::add_tops;
use crate::macros::Macros;
use crate::supplies::{Supplies, first_supplies, supplies_agree};
use eco_common::Memory;
use eco_def::Design;
use eco_net::NetlistMaker;
use std::alloc::Global;

/// A listing of the nets of a design.
fn list_nets(
    alloc: Global,
    text: &[u8],
    design: &Design,
    supplies: &Supplies<'_>,
) -> Result<NetlistMaker, Memory>
    requires { IsReadingOf text.now design.now }
    ensures { IfOk result (NetsListed (supply_value supplies.now) text.now design.now) }
{
    let nets = design.nets.as_slice();
    let mut maker = NetlistMaker::with_room(alloc, nets.len(), design.comps.as_slice().len())?;
    add_stated_nets(&mut maker, alloc, text, nets, supplies)?;
    add_pin_nets(&mut maker, alloc, text, design.pins.as_slice(), supplies)?;
    Ok(maker)
}

/// A listing of the nets, the components and the own pins of a design.
fn list_parts<M: Macros>(
    alloc: Global,
    text: &[u8],
    design: &Design,
    macros: &M,
    supplies: &Supplies<'_>,
) -> Result<NetlistMaker, DesignFault>
    requires { IsReadingOf text.now design.now }
    ensures ok { IfOk result (PartsListed (M.kinds macros.now) (supply_value supplies.now) text.now design.now) }
    ensures err { IfErr result (MacroFault (M.kinds macros.now) (names_of (design_in text.now design.now)).comps) }
{
    let mut maker = list_nets(alloc, text, design, supplies)?;
    let comps = design.comps.as_slice();
    add_comps(&mut maker, alloc, text, design.units, comps, macros)?;
    add_tops(&mut maker, alloc, text, design.pins.as_slice())?;
    Ok(maker)
}

/// Lists the netlist of a design, its tie nets aside.
///
/// The design is the reading of the text. Its nets are numbered by the order of their first statements, and after them
/// come those that only its own pins name; its components are numbered in the order of the text. Joints of supply pins
/// put nothing on a net. `UnknownMacro`, `UnknownPin`, `PinNetDiffers` and `SupplyDiffers` come in this order.
pub fn list_numbered<M: Macros>(
    alloc: Global,
    text: &[u8],
    design: &Design,
    macros: &M,
) -> Result<NetlistMaker, DesignFault>
    requires { IsReadingOf text.now design.now }
    ensures lists { Lists (M.kinds macros.now) (M.powers macros.now) (names_of (design_in text.now design.now)) result }
    ensures numbers { IfOk result (λ m. comp_names m ≡ map (λ c. c.name) (named_comps text.now design.now.comps)) }
{
    let nets = design.nets.as_slice();
    let supplies = first_supplies(alloc, text, nets)?;
    let mut maker = list_parts(alloc, text, design, macros, &supplies)?;
    maker.facts();
    let comps = design.comps.as_slice();
    let pins = find_pins(alloc, &maker, text, comps, macros, nets)?;
    join_pins(&mut maker, pins.as_slice())?;
    if !supplies_agree(text, nets, &supplies) {
        return Err(DesignFault::SupplyDiffers);
    }
    Ok(maker)
}
