//! The pins of one net, by a walk over all rows.

ghost use Rattle.std.specs.Prelude.{◌≡◌, ◌<◌, ◌++◌, length, IfOk, OnOk};
ghost use Rattle.std.specs.List.{filter};
ghost use Rattle.eco_net.specs.ByNumber.{is_net, is_on, drives, tops_to, pins_to, comp_pins, pin_count, pins_on};
ghost use Rattle.eco_net.specs.Listing.{IsKnownPin};
ghost use Rattle.eco_net.specs.Pins.{AreKnownPins};

use crate::ids::{CompId, PinRef, TopId};
use crate::maker::NetlistMaker;
use eco_common::{Dir, Memory};
use std::alloc::Global;

/// Whether a pin with this net, or none, is on the net.
fn is_net(joined: Option<u32>, net: u32) -> bool
    ensures { result ≡ is_net joined net }
{
    match joined {
        None => false,
        Some(number) => number == net,
    }
}

/// Adds the chip's pins that are on a net.
fn add_tops(listed: &NetlistMaker, net: u32, found: &mut Vec<PinRef>) -> Result<(), Memory>
    ensures { OnOk result (found.new.items ≡ found.old.items ++ filter (is_on listed.now net) (tops_to (length listed.now.tops))) }
{
    for top in 0..listed.top_count() {
        if is_net(Some(listed.top(top).net), net) {
            found.push(PinRef::Top(TopId(top)))?;
        }
    }
    Ok(())
}

/// Adds those pins of a component that are on a net.
fn add_pins(
    listed: &NetlistMaker,
    comp: u32,
    net: u32,
    found: &mut Vec<PinRef>,
) -> Result<(), Memory>
    requires { comp < length listed.now.comps }
    ensures { OnOk result (found.new.items ≡ found.old.items ++ filter (is_on listed.now net) (pins_to comp (pin_count listed.now comp))) }
{
    let row = listed.comp(comp);
    for pin in 0..row.joined.len() as u32 {
        if is_net(row.joined.get(pin as usize), net) {
            found.push(PinRef::Pin(CompId(comp), pin))?;
        }
    }
    Ok(())
}

/// Adds those pins of all components that are on a net.
fn add_comps(listed: &NetlistMaker, net: u32, found: &mut Vec<PinRef>) -> Result<(), Memory>
    ensures { OnOk result (found.new.items ≡ found.old.items ++ filter (is_on listed.now net) (comp_pins 0 listed.now.comps)) }
{
    for comp in 0..listed.comp_count() {
        add_pins(listed, comp, net, found)?;
    }
    Ok(())
}

/// The pins of a net: the chip's first, then by component and pin.
pub(crate) fn pins_on(alloc: Global, listed: &NetlistMaker, net: u32) -> Result<Vec<PinRef>, Memory>
    ensures { IfOk result (λ pins. pins.items ≡ pins_on listed.now net) }
{
    let mut found = Vec::new(alloc);
    add_tops(listed, net, &mut found)?;
    add_comps(listed, net, &mut found)?;
    Ok(found)
}

/// Whether a pin is a driving one.
fn drives(listed: &NetlistMaker, pin: PinRef) -> bool
    requires { IsKnownPin listed.now pin }
    ensures { result ≡ drives listed.now pin }
{
    match pin {
        PinRef::Top(top) => listed.top(top.0).dir != Dir::Output,
        PinRef::Pin(comp, pin) => listed.comp(comp.0).kind.pin_use(pin as usize).is_driving(),
    }
}

/// Those of some pins that are driving ones, in their order.
fn driving_among(
    alloc: Global,
    listed: &NetlistMaker,
    pins: &[PinRef],
) -> Result<Vec<PinRef>, Memory>
    requires { AreKnownPins listed.now pins.now }
    ensures { IfOk result (λ found. found.items ≡ filter (drives listed.now) pins.now) }
{
    let mut found = Vec::new(alloc);
    for pin in pins {
        if drives(listed, *pin) {
            found.push(*pin)?;
        }
    }
    Ok(found)
}

/// The driving pins of a net, in the order of its pins.
pub(crate) fn driving_on(
    alloc: Global,
    listed: &NetlistMaker,
    net: u32,
) -> Result<Vec<PinRef>, Memory>
    ensures { IfOk result (λ found. found.items ≡ filter (drives listed.now) (pins_on listed.now net)) }
{
    let pins = pins_on(alloc, listed, net)?;
    driving_among(alloc, listed, &pins)
}
