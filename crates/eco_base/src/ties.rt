//! Tie nets.

ghost use Rattle.std.specs.Prelude.{◌≡◌, ◌<◌, ◌↔◌, IsTrue, length, slice_get, Some, None, IfOk};
ghost use Rattle.std.specs.Option.{option_map};
ghost use Rattle.eco_net.specs.declared.ids.PinRef.{PinRef};
ghost use Rattle.eco_net.specs.Listing.{netlist, net_name, numbered_pin, IsKnownPin};
ghost use Rattle.eco_base.specs.Ties.{tie_name, IsTieOutput, IsTieNet};

use crate::constant::is_constant;
use eco_common::{Memory, Name};
use eco_desk_file::DeskFile;
use eco_net::{CompId, NetId, NetlistMaker, PinRef};
use std::alloc::Global;

/// The name of the net that is tied to a value.
fn tie_name(desk: &DeskFile, value: bool) -> &Name
    ensures { result.now ≡ tie_name desk.now value }
{
    if value { desk.high() } else { desk.low() }
}

/// Whether a pin is an output of this value of a gate without inputs that isn't spare-named.
fn is_tie_output(net: &NetlistMaker, desk: &DeskFile, pin: PinRef, value: bool) -> bool
    requires { IsKnownPin net.now pin }
    ensures { IsTrue result ↔ IsTieOutput desk.now.prefixes (netlist net.now) (numbered_pin net.now pin) value }
{
    match pin {
        PinRef::Top(_) => false,
        PinRef::Pin(comp, pin) => is_tie_pin(net, desk, comp, pin, value),
    }
}

/// The same of a pin of a component.
fn is_tie_pin(net: &NetlistMaker, desk: &DeskFile, comp: CompId, pin: u32, value: bool) -> bool
    requires { IsKnownPin net.now (PinRef.Pin comp pin) }
    ensures { IsTrue result ↔ IsTieOutput desk.now.prefixes (netlist net.now) (numbered_pin net.now (PinRef.Pin comp pin)) value }
{
    net.facts();
    if desk.is_spare(net.comp_name(comp)) {
        return false;
    }
    is_constant(net.kind(comp), pin, value)
}

/// Whether a net that isn't a supply is driven by such an output.
fn is_driven_tie(
    alloc: Global,
    net: &NetlistMaker,
    desk: &DeskFile,
    number: NetId,
    value: bool,
) -> Result<bool, Memory>
    requires known { number.0 < length net.now.nets }
    requires no_supply { option_map (λ r. r.supply) (slice_get net.now.nets number.0) ≡ Some None }
    ensures { IfOk result (λ tied. IsTrue tied ↔ IsTieNet desk.now.prefixes (netlist net.now) (net_name net.now.nets number.0) value) }
{
    net.facts();
    match net.driver(alloc, number)? {
        Some(pin) => Ok(is_tie_output(net, desk, pin, value)),
        None => Ok(false),
    }
}

/// Whether a net is a supply of this value or driven by such an output.
fn is_tie_net(
    alloc: Global,
    net: &NetlistMaker,
    desk: &DeskFile,
    number: NetId,
    value: bool,
) -> Result<bool, Memory>
    requires { number.0 < length net.now.nets }
    ensures { IfOk result (λ tied. IsTrue tied ↔ IsTieNet desk.now.prefixes (netlist net.now) (net_name net.now.nets number.0) value) }
{
    net.facts();
    match net.supply(number) {
        Some(supply) => Ok(supply == value),
        None => is_driven_tie(alloc, net, desk, number, value),
    }
}

/// Whether the desk file's tie net of this value is one: a supply of the value, or a net that isn't a supply and whose one
/// driving pin is an output, of that value, of a gate without inputs that isn't spare-named.
pub fn is_tied(
    alloc: Global,
    net: &NetlistMaker,
    desk: &DeskFile,
    value: bool,
) -> Result<bool, Memory>
    ensures { IfOk result (λ tied. IsTrue tied ↔ IsTieNet desk.now.prefixes (netlist net.now) (tie_name desk.now value) value) }
{
    net.facts();
    match net.find_net(tie_name(desk, value).bytes()) {
        Some(number) => is_tie_net(alloc, net, desk, number, value),
        None => Ok(false),
    }
}
