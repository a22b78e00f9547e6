//! Listing the nets of a design.

ghost use Rattle.std.specs.Prelude.{◌≡◌, ◌+◌, ◌<◌, ◌≤◌, [], ◌∷◌, map, length, Bool, Option, OnOk};
ghost use Rattle.eco_net.specs.Netlist.{Name};
ghost use Rattle.eco_elaborate.specs.Stated.{named_net, named_pin};
ghost use Rattle.eco_elaborate.specs.Stages.{supply_value, AddsNets};

use crate::supplies::{Supplies, supply_of};
use eco_common::{MAX_LISTED_NETS, Memory};
use eco_def::{NetStatement, TopPin};
use eco_net::NetlistMaker;
use eco_text::bytes_at;
use std::alloc::Global;

/// Adds a net, unless it is there.
fn add_net(
    maker: &mut NetlistMaker,
    alloc: Global,
    name: &[u8],
    supply: Option<bool>,
) -> Result<(), Memory>
    requires few { length maker.old.nets < MAX_LISTED_NETS }
    ensures { OnOk result ((value : Name → Option Bool) → value name.now ≡ supply → AddsNets value (name.now ∷ []) maker.old maker.new) }
{
    maker.facts();
    match maker.find_net(name) {
        Some(_) => Ok(()),
        None => {
            maker.add_net(alloc, name, supply)?;
            Ok(())
        }
    }
}

/// Adds the nets of the statements.
pub fn add_stated_nets(
    maker: &mut NetlistMaker,
    alloc: Global,
    text: &[u8],
    nets: &[NetStatement],
    supplies: &Supplies<'_>,
) -> Result<(), Memory>
    requires few { length maker.old.nets + length nets.now ≤ MAX_LISTED_NETS }
    ensures { OnOk result (AddsNets (supply_value supplies.now) (map (λ s. (named_net text.now s).name) nets.now) maker.old maker.new) }
{
    for net in nets {
        let name = bytes_at(text, net.name);
        add_net(maker, alloc, name, supply_of(supplies, name))?;
    }
    Ok(())
}

/// Adds the nets of the design's own pins.
pub fn add_pin_nets(
    maker: &mut NetlistMaker,
    alloc: Global,
    text: &[u8],
    pins: &[TopPin],
    supplies: &Supplies<'_>,
) -> Result<(), Memory>
    requires few { length maker.old.nets + length pins.now ≤ MAX_LISTED_NETS }
    ensures { OnOk result (AddsNets (supply_value supplies.now) (map (λ p. (named_pin text.now p).net) pins.now) maker.old maker.new) }
{
    for pin in pins {
        let name = bytes_at(text, pin.net);
        add_net(maker, alloc, name, supply_of(supplies, name))?;
    }
    Ok(())
}
