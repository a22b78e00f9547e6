//! What a master computes.

ghost use Rattle.std.specs.Prelude.{◌≡◌, ◌==◌, ◌&&◌, nat_le, map, length, IfOk};
ghost use Rattle.std.specs.List.{list_any, list_all};
ghost use Rattle.std.specs.Str.{bytes_eq};
ghost use Rattle.eco_func.specs.Masters.{is_master, all_differ, pins};

use crate::output::OutputFn;
use eco_common::{MAX_INPUTS, MAX_OUTPUTS, Memory, Name};
use std::alloc::Global;
use std::marker::Model;
use std::sync::Arc;

/// A master: its name, its input pins in order, and its outputs with their tables.
///
/// Copies share one record, so that a netlist may have one for each of its components.
#[derive(Drop)]
pub struct MasterFn {
    parts: Arc<MasterParts>,
}

/// What the copies of a master share.
#[derive(Drop)]
struct MasterParts {
    name: Name,
    inputs: Vec<Name>,
    outputs: Vec<OutputFn>,
}

impl Model for MasterParts {
    ghost use Rattle.std.specs.Prelude.{IsTrue};
    ghost use Rattle.eco_func.specs.Masters.{MasterTables, is_master};

    ghost Value = { MasterTables };

    ghost view = { λ m. record { name = m.name; inputs = m.inputs.items; outputs = m.outputs.items } };

    ghost invariant = { λ m. IsTrue (is_master m.inputs.items m.outputs.items) };
}

impl Model for MasterFn {
    ghost use Rattle.std.specs.Arc.{arc_value};
    ghost use Rattle.eco_func.specs.Masters.{MasterTables};

    ghost Value = { MasterTables };

    ghost view = { λ m. arc_value m.parts };
}

impl MasterFn {
    ghost use Rattle.std.specs.Prelude.{◌≡◌, IsTrue, IfOk};
    ghost use Rattle.eco_func.specs.Masters.{is_master, master};

    /// The master with these pins, if they make one: at most six inputs, one to eight outputs, all pins of distinct
    /// names, and each output's table over all the inputs.
    pub fn new(
        alloc: Global,
        name: Name,
        inputs: Vec<Name>,
        outputs: Vec<OutputFn>,
    ) -> Result<Option<MasterFn>, Memory>
        ensures { IfOk result (λ made. made ≡ master name inputs.items outputs.items) }
    {
        if fit_together(&inputs, &outputs) {
            Ok(Some(MasterFn::of(alloc, name, inputs, outputs)?))
        } else {
            Ok(None)
        }
    }

    /// The master with these pins, which make one.
    pub(crate) fn of(
        alloc: Global,
        name: Name,
        inputs: Vec<Name>,
        outputs: Vec<OutputFn>,
    ) -> Result<MasterFn, Memory>
        requires { IsTrue (is_master inputs.items outputs.items) }
        ensures { IfOk result (λ m. m ≡ record { name = name; inputs = inputs.items; outputs = outputs.items }) }
    {
        let parts = MasterParts {
            name,
            inputs,
            outputs,
        };
        Ok(MasterFn {
            parts: Arc::new(alloc, parts)?,
        })
    }

    /// The same master. No memory is taken: `Memory` comes only where there are too many copies to be counted.
    pub fn copy(&self) -> Result<MasterFn, Memory>
        ensures { IfOk result (λ m. m ≡ self.now) }
    {
        Ok(MasterFn {
            parts: Arc::try_clone(&self.parts)?,
        })
    }

    /// Its name.
    pub fn name(&self) -> &Name
        ensures { result.now ≡ self.now.name }
    {
        &self.parts.name
    }

    /// The input pins, in order.
    pub fn inputs(&self) -> &[Name]
        ensures value { result.now ≡ self.now.inputs }
        ensures is_master { IsTrue (is_master self.now.inputs self.now.outputs) }
    {
        &self.parts.inputs
    }

    /// The output pins with their tables.
    pub fn outputs(&self) -> &[OutputFn]
        ensures value { result.now ≡ self.now.outputs }
        ensures is_master { IsTrue (is_master self.now.inputs self.now.outputs) }
    {
        &self.parts.outputs
    }
}

/// Whether inputs and outputs make a master.
fn fit_together(inputs: &[Name], outputs: &[OutputFn]) -> bool
    ensures { result ≡ is_master inputs.now outputs.now }
{
    are_few(inputs.len(), outputs.len())
        && are_over(inputs.len(), outputs)
        && inputs_differ(inputs, outputs)
}

/// Whether a master may have so many inputs and outputs.
fn are_few(inputs: usize, outputs: usize) -> bool
    ensures { result ≡ (nat_le inputs MAX_INPUTS && nat_le 1 outputs && nat_le outputs MAX_OUTPUTS) }
{
    inputs <= MAX_INPUTS && 1 <= outputs && outputs <= MAX_OUTPUTS
}

/// Whether each output's table has so many inputs.
fn are_over(inputs: usize, outputs: &[OutputFn]) -> bool
    ensures { result ≡ list_all (λ o. o.table.inputs == inputs) outputs.now }
{
    outputs
        .iter()
        .all(|output| output.table.inputs() as usize == inputs)
}

/// Whether all pins have distinct names.
fn inputs_differ(inputs: &[Name], outputs: &[OutputFn]) -> bool
    ensures { result ≡ all_differ (pins inputs.now outputs.now) }
{
    for (place, input) in inputs.iter().enumerate() {
        if is_named(&inputs[place + 1..], input) || is_pin(outputs, input) {
            return false;
        }
    }
    pins_differ(outputs)
}

/// Whether all output pins have distinct names.
fn pins_differ(outputs: &[OutputFn]) -> bool
    ensures { result ≡ all_differ (map (λ o. o.pin) outputs.now) }
{
    for (place, output) in outputs.iter().enumerate() {
        if is_pin(&outputs[place + 1..], &output.pin) {
            return false;
        }
    }
    true
}

/// Whether one of the inputs has this name.
fn is_named(inputs: &[Name], name: &Name) -> bool
    ensures { result ≡ list_any (bytes_eq name.now) inputs.now }
{
    inputs.iter().any(|input| name.is(input.bytes()))
}

/// Whether one of the outputs has this name.
fn is_pin(outputs: &[OutputFn], name: &Name) -> bool
    ensures { result ≡ list_any (λ o. bytes_eq name.now o.pin) outputs.now }
{
    outputs.iter().any(|output| name.is(output.pin.bytes()))
}
