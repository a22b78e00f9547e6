//! Patch gates as gates of a netlist.

ghost use Rattle.std.specs.Prelude.{◌≡◌, ◌≤◌, ◌<◌, ◌+◌, ℕ, List, length, map, None, IfOk, OnOk};
ghost use Rattle.std.specs.List.{Contains, IsDistinct, range_with_len};
ghost use Rattle.std.specs.FinMap.{get};
ghost use Rattle.std.specs.Str.{bytes_eq};
ghost use Rattle.eco_net.specs.Listing.{netlist, given_kind, HasOwnPins};
ghost use Rattle.eco_net.specs.Netlist.{Netlist as NamedNetlist, IsNet};
ghost use Rattle.eco_order.specs.Insert.{patch_gate, IsFreeLabel};
ghost use Rattle.eco_order.specs.Inserting.{IsPinOf, HasGateNets, pins_from, put_all, with_gate, with_all_gates};
ghost use Rattle.eco_order_file.specs.Orders.{Gate as OneGate};
ghost use Rattle.eco_patch_laws.specs.Insertion.{input_pin as input_pin_of, patch_name as patch_name_of, patch_component};

use crate::joints::put_pin;
use eco_common::{MAX_LISTED_COMPS, Memory, Name};
use eco_func::{MasterFn, OutputFn};
use eco_net::{Kind, NetlistMaker};
use eco_order_file::Gate;
use std::alloc::Global;

/// The name of an input pin: `i0`, `i1` and so on.
fn input_pin(alloc: Global, place: usize) -> Result<Name, Memory>
    requires { place < 6 }
    ensures { IfOk result (λ n. n ≡ input_pin_of place) }
{
    Name::of(alloc, &[b'i', b'0' + place as u8])
}

/// The names of so many input pins.
fn input_pins(alloc: Global, count: usize) -> Result<Vec<Name>, Memory>
    requires { count ≤ 6 }
    ensures { IfOk result (λ pins. pins.items ≡ map input_pin_of (range_with_len 0 count)) }
{
    let mut pins = Vec::new(alloc);
    for place in 0..count {
        pins.push(input_pin(alloc, place)?)?;
    }
    Ok(pins)
}

/// How many inputs a gate has.
fn input_count(gate: &Gate) -> usize
    ensures count { result ≡ length gate.now.inputs }
    ensures few { length gate.now.inputs ≤ 6 }
{
    let _table = gate.table();
    gate.inputs().len()
}

/// A gate with one output.
fn gate_kind(alloc: Global, gate: &Gate) -> Result<Kind, Memory>
    ensures kind { IfOk result (λ k. given_kind k ≡ (patch_component (patch_gate gate.now) None).kind) }
    ensures own_pins { IfOk result HasOwnPins }
{
    let table = gate.table();
    let inputs = input_pins(alloc, input_count(gate))?;
    let mut outputs = Vec::new(alloc);
    outputs.push(OutputFn {
        pin: Name::of(alloc, b"out")?,
        table,
    })?;
    match MasterFn::new(alloc, gate.name().copy(alloc)?, inputs, outputs)? {
        Some(master) => Ok(Kind::Gate(master)),
        None => unreachable!(),
    }
}

/// The name of a patch gate in a netlist.
fn patch_name(alloc: Global, label: &[u8], gate: &[u8]) -> Result<Vec<u8>, Memory>
    ensures { IfOk result (λ n. n.items ≡ patch_name_of label.now gate.now) }
{
    let mut name = Vec::with_capacity(alloc, 0)?;
    name.extend_from_slice(label)?;
    name.push(b' ')?;
    name.extend_from_slice(gate)?;
    Ok(name)
}

/// Puts a gate's input pins on their nets.
fn put_inputs(
    alloc: Global,
    maker: &mut NetlistMaker,
    comp: &[u8],
    inputs: &[Name],
) -> Result<(), Memory>
    requires few { length inputs.now ≤ 6 }
    requires pins { (i : ℕ) → i < length inputs.now → IsPinOf (netlist maker.old) comp.now (input_pin_of i) }
    requires nets { (n : List ℕ) → Contains inputs.now n → IsNet (netlist maker.old) n }
    ensures named { OnOk result (netlist maker.new ≡ put_all (netlist maker.old) comp.now (pins_from 0 inputs.now)) }
    ensures comps { OnOk result (length maker.new.comps ≡ length maker.old.comps) }
{
    for place in (0..inputs.len()).rev() {
        let pin = input_pin(alloc, place)?;
        put_pin(maker, comp, pin.bytes(), inputs[place].bytes())?;
    }
    Ok(())
}

/// Adds a gate.
fn add_gate(
    alloc: Global,
    maker: &mut NetlistMaker,
    label: &[u8],
    gate: &Gate,
) -> Result<(), Memory>
    requires new { get (netlist maker.old).comps (patch_name_of label.now gate.now.name) ≡ None }
    requires nets { HasGateNets (netlist maker.old) gate.now }
    requires few { length maker.old.comps < MAX_LISTED_COMPS }
    ensures named { OnOk result (netlist maker.new ≡ with_gate label.now (netlist maker.old) gate.now) }
    ensures comps { OnOk result (length maker.new.comps ≡ length maker.old.comps + 1) }
{
    let name = patch_name(alloc, label, gate.name().bytes())?;
    let kind = gate_kind(alloc, gate)?;
    maker.add_comp(alloc, &name, kind, None)?;
    put_pin(maker, &name, b"out", gate.output().bytes())?;
    let _count = input_count(gate);
    put_inputs(alloc, maker, &name, gate.inputs())
}

/// Adds an order's gates.
pub fn add_gates(
    alloc: Global,
    maker: &mut NetlistMaker,
    label: &[u8],
    gates: &[Gate],
) -> Result<(), Memory>
    requires distinct { IsDistinct bytes_eq (map (λ g. g.name) gates.now) }
    requires new { IsFreeLabel (netlist maker.old) label.now }
    requires nets { (g : OneGate) → Contains gates.now g → HasGateNets (netlist maker.old) g }
    requires few { length maker.old.comps + length gates.now ≤ MAX_LISTED_COMPS }
    ensures { OnOk result (netlist maker.new ≡ with_all_gates label.now (netlist maker.old) gates.now) }
{
    for place in (0..gates.len()).rev() {
        add_gate(alloc, maker, label, &gates[place])?;
    }
    Ok(())
}
