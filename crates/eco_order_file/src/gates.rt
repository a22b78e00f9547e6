//! Gates of JSON values.

ghost use Rattle.std.specs.Prelude.{◌≡◌, Ok, Err, Some};
ghost use Rattle.serde_json.specs.Find.{as_object};
ghost use Rattle.serde_json.specs.View.{view, items_view, members_view};
ghost use Rattle.eco_order_file.specs.Given.{Gives};
ghost use Rattle.eco_order_file.specs.Documents.{item_step, below, field, each, list, gate as gate_said};

use crate::fault::{FieldFault, bad_itself, in_field, in_item};
use crate::fields::{
    base_name_field, field_of, inputs_field, missing, other_field, point_or_null_field,
    table_field, text_field,
};
use crate::gate::Gate;
use crate::lists::GateList;
use serde_json::{Map, Value};
use std::alloc::Global;

/// The gate of an object's fields.
fn gate_of(alloc: Global, value: &Value, object: &Map<String, Value>) -> Result<Gate, FieldFault>
    requires { as_object (view value.now) ≡ Some (members_view object.now.entries) }
    ensures { Gives (λ g. g) (gate_said (view value.now)) result }
{
    let name = text_field(alloc, value, "name")?;
    let inputs = inputs_field(alloc, value, "inputs")?;
    let table = table_field(alloc, inputs.as_slice().len() as u8, value, "table")?;
    let output = base_name_field(alloc, value, "output")?;
    let near = point_or_null_field(alloc, value, "near")?;
    match other_field(object, &["name", "inputs", "table", "output", "near"]) {
        Some(other) => Err(missing(alloc, other)),
        None => Ok(Gate::new(name, table, inputs, output, near)),
    }
}

/// A gate.
fn gate(alloc: Global, value: &Value) -> Result<Gate, FieldFault>
    ensures { Gives (λ g. g) (gate_said (view value.now)) result }
{
    match value.as_object() {
        Some(object) => gate_of(alloc, value, object),
        None => Err(bad_itself(alloc)),
    }
}

fn gate_at(alloc: Global, place: usize, value: &Value) -> Result<Gate, FieldFault>
    ensures { Gives (λ g. g) (below (item_step place) (gate_said (view value.now))) result }
{
    match gate(alloc, value) {
        Ok(gate) => Ok(gate),
        Err(fault) => Err(in_item(alloc, place, fault)),
    }
}

fn each_gate(alloc: Global, items: &[Value]) -> Result<GateList, FieldFault>
    ensures { Gives (λ g. g) (each gate_said 0 (items_view items.now)) result }
{
    let mut gates = Vec::new(alloc);
    for (place, item) in items.iter().enumerate() {
        gates.push(gate_at(alloc, place, item)?)?;
    }
    Ok(GateList::of(gates))
}

/// A list of gates.
fn gates(alloc: Global, value: &Value) -> Result<GateList, FieldFault>
    ensures { Gives (λ g. g) (list gate_said (view value.now)) result }
{
    match value.as_array() {
        Some(items) => each_gate(alloc, items),
        None => Err(bad_itself(alloc)),
    }
}

/// The gates of a field.
pub fn gates_field(alloc: Global, object: &Value, name: &str) -> Result<GateList, FieldFault>
    ensures { Gives (λ g. g) (field (list gate_said) name.now (view object.now)) result }
{
    match field_of(object, name) {
        Some(value) => match gates(alloc, value) {
            Ok(gates) => Ok(gates),
            Err(fault) => Err(in_field(alloc, name, fault)),
        },
        None => Err(missing(alloc, name)),
    }
}
