//! The netlist with a gate inserted and a pin moved, and whether a signal would run in a circle in it.

ghost use Rattle.std.specs.Prelude.{◌≡◌, ◌<◌, ◌↔◌, ◌∷◌, [], ℕ, None, IsTrue, length, IfOk, OnOk};
ghost use Rattle.std.specs.List.{Contains};
ghost use Rattle.std.specs.FinMap.{get, insert};
ghost use Rattle.eco_net.specs.declared.ids.PinRef.{PinRef};
ghost use Rattle.eco_net.specs.Netlist.{Name as Bytes, Netlist as Named, IsNet};
ghost use Rattle.eco_net.specs.Walks.{IsLoopFree};
ghost use Rattle.eco_net.specs.Changes.{with_pin_on};
ghost use Rattle.eco_net.specs.Listing.{netlist as listed, numbered_pin, with_joint, IsKnownPin};
ghost use Rattle.eco_patch_laws.specs.Insertion.{patch_name, patch_component};
ghost use Rattle.eco_one_gate.specs.OneGates.{gate_of};
ghost use Rattle.eco_one_gate.specs.OneSteps.{IsMovedPin, IsKnownOrder, moved_on, patched_on};

use crate::one_gate::OneGate;
use crate::patch_master::patch_master;
use eco_common::{MAX_LISTED_COMPS, MAX_LISTED_NETS, Memory};
use eco_net::{CompId, Kind, LoopFault, Netlist, NetlistMaker};
use std::alloc::Global;

/// Puts a pin on the net of a name.
fn put_on(maker: &mut NetlistMaker, comp: CompId, pin: u32, net: &[u8]) -> Result<(), Memory>
    requires pin { IsKnownPin maker.old (PinRef.Pin comp pin) }
    requires net { IsNet (listed maker.old) net.now }
    ensures rows { OnOk result ((n : ℕ) × (maker.new ≡ record maker.old { comps = with_joint maker.old.comps comp.0 pin n })) }
    ensures named { OnOk result (listed maker.new ≡ with_pin_on (listed maker.old) (numbered_pin maker.old (PinRef.Pin comp pin)) net.now) }
{
    match maker.find_net(net) {
        Some(net) => maker.join(comp, pin, net),
        None => unreachable!(),
    }
}

/// Adds the patch gate with its pins on their nets. Its name is a blank, which is no component's.
fn insert_gate(alloc: Global, maker: &mut NetlistMaker, one: &OneGate) -> Result<(), Memory>
    requires new_name { get (listed maker.old).comps (patch_name [] []) ≡ None }
    requires few { length maker.old.comps < MAX_LISTED_COMPS }
    requires inputs { (n : Bytes) → Contains one.now.inputs.items n → IsNet (listed maker.old) n }
    requires output { IsNet (listed maker.old) one.now.output }
    requires rows { length one.now.inputs.items ≡ one.now.table.inputs }
    ensures { OnOk result (listed maker.new ≡ record (listed maker.old) { comps = insert (listed maker.old).comps (patch_name [] []) (patch_component (gate_of one.now) None) }) }
{
    let master = patch_master(alloc, one.table)?;
    let gate = maker.add_comp(alloc, b" ", Kind::Gate(master), None)?;
    let count = u32::from(one.table.inputs());
    let inputs = one.inputs.as_slice();
    for (place, input) in inputs.iter().enumerate() {
        put_on(maker, gate, place as u32, input.bytes())?;
    }
    put_on(maker, gate, count, one.output.bytes())
}

/// The netlist with the new net and the pin moved to it.
fn with_move(
    alloc: Global,
    netlist: &Netlist,
    one: &OneGate,
    comp: CompId,
    pin: u32,
) -> Result<NetlistMaker, Memory>
    requires few { length netlist.now.nets < MAX_LISTED_NETS }
    requires known { IsKnownOrder (listed netlist.now) one.now }
    requires moved { IsMovedPin netlist.now one.now comp pin }
    ensures named { IfOk result (λ m. listed m ≡ moved_on (listed netlist.now) one.now) }
    ensures count { IfOk result (λ m. length m.comps ≡ length netlist.now.comps) }
{
    let mut maker = NetlistMaker::of(alloc, netlist)?;
    let output = one.output.bytes();
    maker.add_net(alloc, output, None)?;
    put_on(&mut maker, comp, pin, output)?;
    Ok(maker)
}

/// The netlist with the gate inserted and the pin moved.
fn patched(
    alloc: Global,
    netlist: &Netlist,
    one: &OneGate,
    comp: CompId,
    pin: u32,
) -> Result<Netlist, Memory>
    requires few_nets { length netlist.now.nets < MAX_LISTED_NETS }
    requires few_comps { length netlist.now.comps < MAX_LISTED_COMPS }
    requires new_name { get (listed netlist.now).comps (patch_name [] []) ≡ None }
    requires known { IsKnownOrder (listed netlist.now) one.now }
    requires moved { IsMovedPin netlist.now one.now comp pin }
    ensures { IfOk result (λ n. listed n ≡ patched_on (listed netlist.now) one.now) }
{
    let mut maker = with_move(alloc, netlist, one, comp, pin)?;
    insert_gate(alloc, &mut maker, one)?;
    maker.finish(alloc)
}

/// Whether no signal runs in a circle where the gate is inserted and the pin is moved.
pub(crate) fn is_loop_free(
    alloc: Global,
    netlist: &Netlist,
    one: &OneGate,
    comp: CompId,
    pin: u32,
) -> Result<bool, Memory>
    requires few_nets { length netlist.now.nets < MAX_LISTED_NETS }
    requires few_comps { length netlist.now.comps < MAX_LISTED_COMPS }
    requires new_name { get (listed netlist.now).comps (patch_name [] []) ≡ None }
    requires known { IsKnownOrder (listed netlist.now) one.now }
    requires moved { IsMovedPin netlist.now one.now comp pin }
    ensures { IfOk result (λ b. IsTrue b ↔ IsLoopFree (patched_on (listed netlist.now) one.now)) }
{
    let patched = patched(alloc, netlist, one, comp, pin)?;
    match patched.levels(alloc) {
        Ok(_) => Ok(true),
        Err(LoopFault::Loop { nets: _ }) => Ok(false),
        Err(LoopFault::Memory) => Err(Memory),
    }
}
