//! The JSON values that are written for orders.

ghost use Rattle.std.specs.Prelude.{◌≡◌, All, IfOk, string_bytes, [], ◌∷◌, option_copied, if◌then◌else◌, Some, None};
ghost use Rattle.std.specs.Str.{is_utf8};
ghost use Rattle.serde_json.specs.View.{view};
ghost use Rattle.eco_order_file.specs.Orders.{IsWhole};
ghost use Rattle.eco_order_file.specs.OrderValues.{name_value as name_value_of, list_value, value_or_null, digit as digit_of, table_text as table_text_of, point_value as point_value_of, gate_value as gate_value_of, move_value as move_value_of, order_value as order_value_of};

use crate::gate::Gate;
use crate::order::{Move, Order};
use eco_common::{Name, Point};
use eco_func::Table;
use serde_json::{Value, json};
use std::alloc::{AllocError, Global};

/// The text that bytes are in UTF-8.
fn text_of(bytes: &[u8]) -> Option<&str>
    ensures { option_copied result ≡ (if is_utf8 bytes.now then Some bytes.now else None) }
{
    match str::from_utf8(bytes) {
        Ok(text) => Some(text),
        Err(_) => None,
    }
}

/// A name as a text.
pub fn name_value(alloc: Global, name: &Name) -> Result<Value, AllocError>
    ensures { IfOk result (λ v. view v ≡ name_value_of name.now) }
{
    match text_of(name.bytes()) {
        Some(text) => Ok(Value::String(String::from_str(alloc, text)?)),
        None => Ok(Value::from(0u64)),
    }
}

pub fn name_or_null(alloc: Global, name: &Option<Name>) -> Result<Value, AllocError>
    ensures { IfOk result (λ v. view v ≡ value_or_null name_value_of name.now) }
{
    match name {
        Some(name) => name_value(alloc, name),
        None => Ok(Value::Null),
    }
}

/// A list of names.
pub fn names_value(alloc: Global, names: &[Name]) -> Result<Value, AllocError>
    ensures { IfOk result (λ v. view v ≡ list_value name_value_of names.now) }
{
    let mut list = Vec::new(alloc);
    for name in names {
        list.push(name_value(alloc, name)?)?;
    }
    Ok(Value::Array(list))
}

fn digit(bit: bool) -> &'static str
    ensures { result.now ≡ digit_of bit ∷ [] }
{
    if bit { "1" } else { "0" }
}

/// A digit for each row of a table.
fn table_text(alloc: Global, table: Table) -> Result<String, AllocError>
    ensures { IfOk result (λ s. string_bytes s ≡ table_text_of table) }
{
    let mut text = String::new(alloc);
    for row in 0..1 << table.inputs() {
        text.push_str(digit(table.at(row)))?;
    }
    Ok(text)
}

fn point_or_null(alloc: Global, point: Option<Point>) -> Result<Value, AllocError>
    ensures { IfOk result (λ v. view v ≡ value_or_null point_value_of point) }
{
    match point {
        Some(point) => json!(in alloc; [point.x, point.y]),
        None => Ok(Value::Null),
    }
}

fn gate_value(alloc: Global, gate: &Gate) -> Result<Value, AllocError>
    ensures value { IfOk result (λ v. view v ≡ gate_value_of gate.now) }
    ensures whole { IfOk result (λ _. IsWhole gate.now) }
{
    let inputs = names_value(alloc, gate.inputs())?;
    let name = name_value(alloc, gate.name())?;
    let near = point_or_null(alloc, gate.near())?;
    let output = name_value(alloc, gate.output())?;
    let table = table_text(alloc, gate.table())?;
    json!(in alloc; {"inputs": inputs, "name": name, "near": near, "output": output, "table": table})
}

fn gates_value(alloc: Global, gates: &[Gate]) -> Result<Value, AllocError>
    ensures value { IfOk result (λ v. view v ≡ list_value gate_value_of gates.now) }
    ensures whole { IfOk result (λ _. All IsWhole gates.now) }
{
    let mut list = Vec::new(alloc);
    for gate in gates {
        list.push(gate_value(alloc, gate)?)?;
    }
    Ok(Value::Array(list))
}

fn move_value(alloc: Global, moved: &Move) -> Result<Value, AllocError>
    ensures { IfOk result (λ v. view v ≡ move_value_of moved.now) }
{
    let comp = name_value(alloc, &moved.comp)?;
    let from_net = name_or_null(alloc, &moved.from_net)?;
    let pin = name_value(alloc, &moved.pin)?;
    let to_net = name_value(alloc, &moved.to_net)?;
    json!(in alloc; {"comp": comp, "from": from_net, "pin": pin, "to": to_net})
}

fn moves_value(alloc: Global, moves: &[Move]) -> Result<Value, AllocError>
    ensures { IfOk result (λ v. view v ≡ list_value move_value_of moves.now) }
{
    let mut list = Vec::new(alloc);
    for moved in moves {
        list.push(move_value(alloc, moved)?)?;
    }
    Ok(Value::Array(list))
}

/// The JSON value of an order.
pub fn order_value(alloc: Global, order: &Order) -> Result<Value, AllocError>
    ensures value { IfOk result (λ v. view v ≡ order_value_of order.now) }
    ensures whole { IfOk result (λ _. All IsWhole order.now.gates) }
{
    let by = name_value(alloc, &order.by)?;
    let gates = gates_value(alloc, order.gates.as_slice())?;
    let moves = moves_value(alloc, order.moves.as_slice())?;
    let name = name_value(alloc, &order.name)?;
    let nets = names_value(alloc, order.nets.as_slice())?;
    json!(in alloc; {"by": by, "gates": gates, "moves": moves, "name": name, "nets": nets})
}
