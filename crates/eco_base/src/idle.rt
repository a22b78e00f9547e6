//! Idle gates: every input is on one of the tie nets, and every output is unconnected.

ghost use Rattle.std.specs.Prelude.{◌≡◌, ◌<◌, ◌&&◌, Some, length, slice_get, is_some, cond, None};
ghost use Rattle.std.specs.Option.{option_map};
ghost use Rattle.std.specs.List.{list_all};
ghost use Rattle.std.specs.FinMap.{get};
ghost use Rattle.eco_net.specs.declared.ids.PinRef.{PinRef};
ghost use Rattle.eco_net.specs.Netlist.{pins_of};
ghost use Rattle.eco_net.specs.Drivers.{net_of, dir_of_role};
ghost use Rattle.eco_net.specs.Listing.{netlist, net_name, component, pins, numbered_pin, IsKnownPin};
ghost use Rattle.eco_net.specs.ByNumber.{role_at};
ghost use Rattle.eco_base.specs.Stock.{is_on_tie, is_at_rest, is_idle, is_stock};
ghost use Rattle.eco_base.specs.Found.{is_stock_row, is_skipped_row};

use eco_common::{Dir, Point};
use eco_desk_file::DeskFile;
use eco_net::{CompId, Kind, NetId, NetlistMaker, PinRef};

/// Whether a pin is on one of the tie nets.
fn is_on_tie(net: &NetlistMaker, desk: &DeskFile, pin: PinRef) -> bool
    requires { IsKnownPin net.now pin }
    ensures { result ≡ is_on_tie desk.now (net_of (netlist net.now) (numbered_pin net.now pin)) }
{
    match net.net_of(pin) {
        Some(number) => is_tie(net, desk, number),
        None => false,
    }
}

/// Whether a net is one of the tie nets.
fn is_tie(net: &NetlistMaker, desk: &DeskFile, number: NetId) -> bool
    requires { number.0 < length net.now.nets }
    ensures { result ≡ is_on_tie desk.now (Some (net_name net.now.nets number.0)) }
{
    let name = net.net_name(number);
    desk.high().is(name) || desk.low().is(name)
}

/// Whether a pin of this direction is at rest.
fn rests(net: &NetlistMaker, desk: &DeskFile, pin: PinRef, dir: Dir) -> bool
    requires { IsKnownPin net.now pin }
    ensures { result ≡ is_at_rest desk.now dir (net_of (netlist net.now) (numbered_pin net.now pin)) }
{
    match dir {
        Dir::Input => is_on_tie(net, desk, pin),
        Dir::Output => net.net_of(pin).is_none(),
        Dir::Inout => false,
    }
}

/// Whether a component's pin is at rest.
fn is_at_rest(net: &NetlistMaker, desk: &DeskFile, comp: CompId, pin: u32) -> bool
    requires { IsKnownPin net.now (PinRef.Pin comp pin) }
    ensures { option_map (λ r. is_at_rest desk.now (dir_of_role r) (net_of (netlist net.now) (numbered_pin net.now (PinRef.Pin comp pin)))) (role_at (slice_get net.now.comps comp.0) pin) ≡ Some result }
{
    rests(net, desk, PinRef::Pin(comp, pin), net.pin_dir(comp, pin))
}

/// Whether all pins of a component are at rest.
fn are_at_rest(net: &NetlistMaker, desk: &DeskFile, comp: CompId, count: u32) -> bool
    requires { option_map (λ r. length (pins r)) (slice_get net.now.comps comp.0) ≡ Some count }
    ensures { option_map (λ r. list_all (λ p. is_at_rest desk.now (dir_of_role p.1) (get (component net.now.nets r).joined p.0)) (pins r)) (slice_get net.now.comps comp.0) ≡ Some result }
{
    net.facts();
    for pin in 0..count {
        if !is_at_rest(net, desk, comp, pin) {
            return false;
        }
    }
    true
}

/// Whether a component is a gate with all pins at rest.
fn is_idle(net: &NetlistMaker, desk: &DeskFile, comp: CompId) -> bool
    requires { comp.0 < length net.now.comps }
    ensures { option_map (λ r. is_idle desk.now (component net.now.nets r)) (slice_get net.now.comps comp.0) ≡ Some result }
{
    net.facts();
    match net.kind(comp) {
        Kind::Gate(master) => {
            let count = master.inputs().len() + master.outputs().len();
            are_at_rest(net, desk, comp, count as u32)
        }
        Kind::Boxed(_) => false,
    }
}

/// Whether a component is placed and a gate with all pins at rest.
fn is_free(net: &NetlistMaker, desk: &DeskFile, comp: CompId) -> bool
    requires { comp.0 < length net.now.comps }
    ensures { option_map (λ r. is_some r.place && is_idle desk.now (component net.now.nets r)) (slice_get net.now.comps comp.0) ≡ Some result }
{
    net.place_of(comp).is_some() && is_idle(net, desk, comp)
}

/// Whether a component is stock.
pub fn is_stock(net: &NetlistMaker, desk: &DeskFile, comp: CompId) -> bool
    requires { comp.0 < length net.now.comps }
    ensures { option_map (is_stock_row desk.now net.now.nets) (slice_get net.now.comps comp.0) ≡ Some result }
{
    desk.is_spare(net.comp_name(comp)) && is_free(net, desk, comp)
}

/// The doubled centre of a component that is stock.
pub fn stock_place(net: &NetlistMaker, desk: &DeskFile, comp: CompId) -> Option<Point>
    requires { comp.0 < length net.now.comps }
    ensures { option_map (λ r. cond (is_stock_row desk.now net.now.nets r) r.place None) (slice_get net.now.comps comp.0) ≡ Some result }
{
    if is_stock(net, desk, comp) {
        net.place_of(comp)
    } else {
        None
    }
}

/// Whether a component is spare-named and isn't stock.
pub fn is_skipped(net: &NetlistMaker, desk: &DeskFile, comp: CompId) -> bool
    requires { comp.0 < length net.now.comps }
    ensures { option_map (is_skipped_row desk.now net.now.nets) (slice_get net.now.comps comp.0) ≡ Some result }
{
    desk.is_spare(net.comp_name(comp)) && !is_stock(net, desk, comp)
}
