//! One gate on one spare: the order is tried, and the pins that the spare's metal puts on nets are issued.

ghost use Rattle.std.specs.Prelude.{IfOk, MatchResult};
ghost use Rattle.eco_one_gate.specs.OneGates.{IsApplied};
ghost use Rattle.eco_one_gate.specs.OneAnswers.{IsReady, IsRefused, AppliesOne};
ghost use Rattle.eco_overlay.specs.Overlays.{IsMadeFor};

use crate::embedded::is_embedded;
use crate::gate_joints::gate_joints;
use crate::good_order::known_order;
use crate::one_fault::OneFault;
use crate::one_gate::OneGate;
use crate::patched::is_loop_free;
use crate::spare::spare_master;
use eco_base::Base;
use eco_common::Memory;
use eco_func::MasterFn;
use eco_overlay::Overlay;
use std::alloc::Global;

/// The master of the order's spare, where the spare is one, the order is good and the gate is embedded.
fn ready_master<'a>(base: &'a Base, alloc: Global, one: &OneGate) -> Result<&'a MasterFn, OneFault>
    ensures { MatchResult result (λ m. IsReady base.entry.now one.entry.now m.now) (λ e. IsRefused base.entry.now one.entry.now e) }
{
    let Some(master) = spare_master(base, one.spare.bytes()) else {
        return Err(OneFault::NotSpare);
    };
    let netlist = base.netlist();
    netlist.facts();
    let Some((comp, pin)) = known_order(netlist, one) else {
        return Err(OneFault::BadOrder);
    };
    if !is_loop_free(alloc, netlist, one, comp, pin)? {
        return Err(OneFault::BadOrder);
    }
    if is_embedded(master, one) {
        Ok(master)
    } else {
        Err(OneFault::NotEmbedding)
    }
}

/// The overlay that puts the spare's pins on their nets.
fn gate_overlay(
    base: &Base,
    alloc: Global,
    one: &OneGate,
    master: &MasterFn,
) -> Result<Overlay, Memory>
    requires { IsReady base.now one.now master.now }
    ensures applied { (ready : IsReady base.now one.now master.now) → IfOk result (IsApplied base.now.texts one.now ready.gate.spare.output) }
    ensures made { IfOk result (IsMadeFor base.now.texts.text base.now.texts.design) }
{
    let output = &master.outputs()[0].pin;
    let (low, high) = (base.tie(false), base.tie(true));
    let joints = gate_joints(alloc, low, high, one, master.inputs(), output)?;
    let mut nets = Vec::new(alloc);
    nets.push(one.output.copy(alloc)?)?;
    Overlay::of(alloc, base.text(), base.design(), &joints, &nets)
}

/// The overlay that puts one patch gate on one spare of the base's stock, and moves a pin to the gate's output.
///
/// On a base whose issued texts can be read again, the text with it reads back to the netlist with the spare in the gate's
/// place. That netlist has the valuations of the netlist with the gate inserted, and means the same. The faults come in the
/// order of `OneFault`, each exactly where its condition holds and no earlier one does.
pub fn apply_one(base: &Base, alloc: Global, one: &OneGate) -> Result<Overlay, OneFault>
    ensures applies { AppliesOne base.now one.now result }
    ensures made { IfOk result (IsMadeFor base.now.texts.text base.now.texts.design) }
{
    let master = ready_master(base, alloc, one)?;
    Ok(gate_overlay(base, alloc, one, master)?)
}
