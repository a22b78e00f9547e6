//! What the calls of a netlist answer, as text.

ghost use Rattle.std.specs.Prelude.{◌≡◌, IfOk, length};

use eco_common::Name;
use eco_net::{CutKey, CutValues, Kind, LoopFault, NetId, Netlist, PinRef, Values};
use std::alloc::Global;
use std::test::Fail;

/// Fails where a text isn't the wanted one, and says of which case it is.
pub fn agree(got: &str, wanted: &str, case: &str) -> Result<(), Fail> {
    if got == wanted {
        Ok(())
    } else {
        Err(Fail::new(format_args!("{got:?} for {wanted:?} of {case:?}")))
    }
}

/// The pin of a number.
fn kind_pin(kind: &Kind, pin: usize) -> Option<&Name> {
    match kind {
        Kind::Gate(master) => {
            let inputs = master.inputs();
            match inputs.get(pin) {
                Some(name) => Some(name),
                None => match master.outputs().get(pin.saturating_sub(inputs.len())) {
                    Some(output) => Some(&output.pin),
                    None => None,
                },
            }
        }
        Kind::Boxed(pins) => match pins.as_slice().get(pin) {
            Some(pin) => Some(&pin.name),
            None => None,
        },
    }
}

/// A pin as `PIN/name` or `component/name`.
fn pin_text(alloc: Global, netlist: &Netlist, pin: PinRef) -> Result<String, Fail> {
    let counts = netlist.counts();
    match pin {
        PinRef::Top(top) => {
            if counts.tops <= top.0 {
                return Err("no such top pin".into());
            }
            let name = str::from_utf8(netlist.pin_name(pin).pin)?;
            Ok(format!(in alloc; "PIN/{name}")?)
        }
        PinRef::Pin(comp, pin) => {
            if counts.comps <= comp.0 {
                return Err("no such component".into());
            }
            let name = str::from_utf8(netlist.comp_name(comp))?;
            let pin = kind_pin(netlist.kind(comp), pin as usize).ok_or("no such pin")?;
            Ok(format!(in alloc; "{name}/{pin}")?)
        }
    }
}

/// The name of a net.
fn net_text(netlist: &Netlist, net: NetId) -> Result<&str, Fail> {
    if netlist.counts().nets <= net.0 {
        return Err("no such net".into());
    }
    Ok(str::from_utf8(netlist.net_name(net))?)
}

/// Pins, each behind a blank.
fn pins_text(alloc: Global, netlist: &Netlist, pins: &[PinRef]) -> Result<String, Fail> {
    let mut line = String::new(alloc);
    for pin in pins {
        let pin = pin_text(alloc, netlist, *pin)?;
        write!(line, " {pin}")?;
    }
    Ok(line)
}

/// The sinks of a net, behind an arrow where there are any.
fn sinks_text(alloc: Global, netlist: &Netlist, net: NetId) -> Result<String, Fail> {
    if netlist.counts().nets <= net.0 {
        return Err("no such net".into());
    }
    let sinks = netlist.sinks(alloc, net)?;
    if sinks.is_empty() {
        return Ok(String::new(alloc));
    }
    let pins = pins_text(alloc, netlist, &sinks)?;
    Ok(format!(in alloc; " ->{pins}")?)
}

/// The one driver of a net behind a blank, where there is one.
fn driver_text(alloc: Global, netlist: &Netlist, net: NetId) -> Result<String, Fail> {
    if netlist.counts().nets <= net.0 {
        return Err("no such net".into());
    }
    match netlist.driver(net) {
        Some(pin) => pins_text(alloc, netlist, &[pin]),
        None => Ok(String::new(alloc)),
    }
}

/// Whether a net is a supply and a tie net.
fn marks_text(netlist: &Netlist, net: NetId) -> Result<&'static str, Fail> {
    if netlist.counts().nets <= net.0 {
        return Err("no such net".into());
    }
    Ok(match (netlist.supply(net), netlist.is_tie(net)) {
        (None, false) => "",
        (None, true) => " tie",
        (Some(false), false) => " supply=0",
        (Some(false), true) => " supply=0 tie",
        (Some(true), false) => " supply=1",
        (Some(true), true) => " supply=1 tie",
    })
}

/// Each net with its marks, its driver and its sinks, a line for each.
pub fn nets_said(alloc: Global, netlist: &Netlist) -> Result<String, Fail> {
    let mut lines = String::new(alloc);
    for net in 0..netlist.counts().nets {
        let net = NetId(net);
        let name = net_text(netlist, net)?;
        let marks = marks_text(netlist, net)?;
        let driver = driver_text(alloc, netlist, net)?;
        let sinks = sinks_text(alloc, netlist, net)?;
        write!(lines, "{name}{marks}{driver}{sinks}\n")?;
    }
    Ok(lines)
}

/// The greatest depth of a gate, or the nets of a loop.
pub fn depth_said(alloc: Global, netlist: &Netlist) -> Result<String, Fail> {
    match netlist.levels(alloc) {
        Ok(levels) => Ok(format!(in alloc; "depth={}", levels.depth())?),
        Err(LoopFault::Memory) => Err("memory".into()),
        Err(fault) => Ok(format!(in alloc; "{fault}")?),
    }
}

/// A cut key behind a blank: its pin, or its net.
fn key_text(alloc: Global, netlist: &Netlist, key: CutKey) -> Result<String, Fail> {
    match key {
        CutKey::Top(top) => pins_text(alloc, netlist, &[PinRef::Top(top)]),
        CutKey::Boxed(comp, pin) => pins_text(alloc, netlist, &[PinRef::Pin(comp, pin)]),
        CutKey::Net(net) => Ok(format!(in alloc; " {}", net_text(netlist, net)?)?),
    }
}

/// The cut keys, each behind a blank.
pub fn keys_said(alloc: Global, netlist: &Netlist) -> Result<String, Fail> {
    let mut line = String::new(alloc);
    for key in netlist.cut_keys(alloc)? {
        line.push_str(key_text(alloc, netlist, key)?.as_str())?;
    }
    Ok(line)
}

/// The observables, each behind a blank.
pub fn observables_said(alloc: Global, netlist: &Netlist) -> Result<String, Fail> {
    let observables = netlist.observables(alloc)?;
    pins_text(alloc, netlist, &observables)
}

/// The bits of a text of `0` and `1`.
fn bits_of(alloc: Global, text: &str) -> Result<Vec<bool>, Fail> {
    let mut bits = Vec::new(alloc);
    for byte in text.as_bytes() {
        bits.push(*byte == b'1')?;
    }
    Ok(bits)
}

/// The value of each net, where the cut keys have these bits.
fn values_of(alloc: Global, netlist: &Netlist, bits: &str) -> Result<Values, Fail>
    ensures { IfOk result (λ values. length values ≡ length netlist.now.nets) }
{
    let bits = bits_of(alloc, bits)?;
    if netlist.cut_keys(alloc)?.len() != bits.len() {
        return Err("a bit for each cut key".into());
    }
    let levels = netlist.levels(alloc)?;
    Ok(netlist.value_all(alloc, &levels, &CutValues::new(bits))?)
}

/// Each net with its value, behind a blank, where the cut keys have these bits.
pub fn values_said(alloc: Global, netlist: &Netlist, bits: &str) -> Result<String, Fail> {
    let values = values_of(alloc, netlist, bits)?;
    let mut line = String::new(alloc);
    for net in 0..netlist.counts().nets {
        let net = NetId(net);
        let name = net_text(netlist, net)?;
        let value = u8::from(values.at(net));
        write!(line, " {name}={value}")?;
    }
    Ok(line)
}
