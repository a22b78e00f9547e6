//! Listing the design's own pins.

ghost use Rattle.std.specs.Prelude.{◌≡◌, ◌+◌, ◌<◌, ◌≤◌, [], ◌∷◌, map, length, None, false, OnOk};
ghost use Rattle.std.specs.List.{Contains};
ghost use Rattle.std.specs.FinMap.{get};
ghost use Rattle.eco_def.specs.Named.{NamedPin};
ghost use Rattle.eco_net.specs.Netlist.{IsNet};
ghost use Rattle.eco_net.specs.Listing.{netlist, AreDistinctNames};
ghost use Rattle.eco_elaborate.specs.Stated.{named_pin, named_pins};
ghost use Rattle.eco_elaborate.specs.Stages.{AddsTops, TopsAre};

use eco_common::{MAX_TOP_PINS, Memory};
use eco_def::TopPin;
use eco_net::NetlistMaker;
use eco_text::bytes_at;
use std::alloc::Global;

/// Adds a pin of the design, unless it is a supply pin.
fn add_top(maker: &mut NetlistMaker, alloc: Global, text: &[u8], pin: &TopPin) -> Result<(), Memory>
    requires new_name { get (netlist maker.old).tops (named_pin text.now pin.now).name ≡ None }
    requires net { IsNet (netlist maker.old) (named_pin text.now pin.now).net }
    requires few { length maker.old.tops < MAX_TOP_PINS }
    ensures { OnOk result (AddsTops (named_pin text.now pin.now ∷ []) maker.old maker.new) }
{
    maker.facts();
    if pin.supply {
        return Ok(());
    }
    let name = bytes_at(text, pin.name);
    match maker.find_net(bytes_at(text, pin.net)) {
        Some(net) => {
            maker.add_top(alloc, name, pin.dir, net)?;
            Ok(())
        }
        None => unreachable!(),
    }
}

/// Adds the design's own pins that aren't supply pins. Their nets are listed.
pub fn add_tops(
    maker: &mut NetlistMaker,
    alloc: Global,
    text: &[u8],
    pins: &[TopPin],
) -> Result<(), Memory>
    requires none { TopsAre [] (netlist maker.old) }
    requires apart { AreDistinctNames (map (λ p. (named_pin text.now p).name) pins.now) }
    requires nets { (p : NamedPin) → Contains (named_pins text.now pins.now) p → IsNet (netlist maker.old) p.net }
    requires few { length maker.old.tops + length pins.now ≤ MAX_TOP_PINS }
    ensures { OnOk result (AddsTops (named_pins text.now pins.now) maker.old maker.new) }
{
    for pin in pins {
        add_top(maker, alloc, text, pin)?;
    }
    Ok(())
}
