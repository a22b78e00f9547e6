//! The pins of each net.

ghost use Rattle.std.specs.Prelude.{◌≡◌, ◌<◌, ◌^◌, ℕ, length, slice_index, IfOk};
ghost use Rattle.eco_net.specs.ByNumber.{by_net, tops_to, pins_to, all_pins, pin_count};
ghost use Rattle.eco_net.specs.PinLists.{put_all};

use crate::ids::{CompId, PinRef, TopId};
use crate::maker::NetlistMaker;
use crate::pin_lists::{Filling, PinLists};
use eco_common::Memory;
use std::alloc::Global;

/// Puts each top pin on its net.
fn put_tops(listed: &NetlistMaker, on: &mut Filling)
    requires each_net { length on.old.ends ≡ length listed.now.nets }
    requires few { (n : ℕ) → slice_index on.old.ends n < 2 ^ 56 }
    ensures { on.new ≡ put_all listed.now on.old (tops_to (length listed.now.tops)) }
{
    for top in 0..listed.top_count() {
        on.put(listed.top(top).net, PinRef::Top(TopId(top)));
    }
}

/// Puts each pin of a component on its net.
fn put_comp(listed: &NetlistMaker, comp: u32, on: &mut Filling)
    requires known { comp < length listed.now.comps }
    requires each_net { length on.old.ends ≡ length listed.now.nets }
    requires few { (n : ℕ) → slice_index on.old.ends n < 2 ^ 58 }
    ensures { on.new ≡ put_all listed.now on.old (pins_to comp (pin_count listed.now comp)) }
{
    let row = listed.comp(comp);
    for pin in 0..row.joined.len() as u32 {
        if let Some(net) = row.joined.get(pin as usize) {
            on.put(net, PinRef::Pin(CompId(comp), pin));
        }
    }
}

/// Puts each pin on its net: the chip's first, then by component and pin.
fn put_pins(listed: &NetlistMaker, on: &mut Filling)
    requires each_net { length on.old.ends ≡ length listed.now.nets }
    requires few { (n : ℕ) → slice_index on.old.ends n < 2 ^ 56 }
    ensures { on.new ≡ put_all listed.now on.old (all_pins listed.now) }
{
    listed.facts();
    put_tops(listed, on);
    for comp in 0..listed.comp_count() {
        put_comp(listed, comp, on);
    }
}

/// The pins of each net: the chip's first, then by component and pin.
pub(crate) fn pins_by_net(alloc: Global, listed: &NetlistMaker) -> Result<PinLists, Memory>
    ensures { IfOk result (λ on. on ≡ by_net listed.now (all_pins listed.now)) }
{
    let mut counted = Filling::new(alloc, listed.net_count())?;
    put_pins(listed, &mut counted);
    let mut filled = counted.with_places(alloc)?;
    put_pins(listed, &mut filled);
    Ok(filled.finish())
}
