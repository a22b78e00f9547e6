//! Masters of a TOML document.

ghost use Rattle.std.specs.Prelude.{◌≡◌, ◌≤◌, ◌&&◌, ◌||◌, not, nat_le, IfOk, MatchOption, List, ℕ, Ok, Err, length, true, ◌<◌, option_map, option_and_then, string_bytes, codes};
ghost use Rattle.std.specs.List.{list_any, All};
ghost use Rattle.std.specs.List.Sorted.{IsStrictlySortedBy};
ghost use Rattle.std.specs.Map.{keys_of};
ghost use Rattle.std.specs.String.{string_cmp};
ghost use Rattle.std.specs.Str.{bytes_eq};
ghost use Rattle.toml.specs.Data.{as_str, as_array, as_table, get};
ghost use Rattle.toml.specs.View.{view, array_view, table_view};
ghost use Rattle.eco_func.specs.declared.fault.FuncFault.TheVariants.{BadField};
ghost use Rattle.eco_func.specs.Masters.{all_differ, is_master};
ghost use Rattle.eco_func.specs.Expressions.{Expression, expression_in, value_at, table_by};
ghost use Rattle.eco_func.specs.Tables.{bit};
ghost use Rattle.eco_func.specs.FunctionsFile.{texts_of, inputs_of, output_table as table_said, output_of as output_said, outputs_of, no_key_among, may_be_outputs as may_be, outputs_in, expressed, is_master_field as field_of_master, no_other, master_of, masters_of, GivesValue};

use crate::bits::{has_only_bits, read_table};
use crate::blame::{bad_expression, bad_field, bad_table, too_many_inputs, unknown_input};
use crate::differ::differ;
use crate::expression::read_expression;
use crate::fault::FuncFault;
use crate::master::MasterFn;
use crate::output::OutputFn;
use crate::rows::low_rows;
use crate::table::Table as TruthTable;
use crate::text_list::texts;
use eco_common::{MAX_INPUTS, MAX_OUTPUTS, MAX_ROWS, Memory, Name};
use std::alloc::Global;
use toml::Value;
use toml::value::{Array, Table};

/// The list at a field of a table.
fn list_at<'a>(value: &'a Value, field: &str) -> Option<&'a Array>
    ensures { option_map (λ list. array_view list.now) result ≡ option_and_then as_array (get field.now (view value.now)) }
{
    value.get(field)?.as_array()
}

/// The table at a field of a table.
fn table_at<'a>(value: &'a Value, field: &str) -> Option<&'a Table>
    ensures { option_map (λ fields. table_view fields.now) result ≡ option_and_then as_table (get field.now (view value.now)) }
{
    value.get(field)?.as_table()
}

/// The texts of the field `inputs`.
fn input_texts(alloc: Global, value: &Value) -> Result<Option<Vec<Name>>, Memory>
    ensures { IfOk result (λ found. option_map (λ names. names.items) found ≡ option_and_then texts_of (option_and_then as_array (get (codes "inputs") (view value.now)))) }
{
    match list_at(value, "inputs") {
        Some(list) => texts(alloc, list),
        None => Ok(None),
    }
}

/// The inputs of a master.
fn inputs_of_master(alloc: Global, master: &[u8], value: &Value) -> Result<Vec<Name>, FuncFault>
    ensures said { GivesValue (λ names. names.items) (inputs_of master.now (view value.now)) result }
    ensures differ { IfOk result (λ names. all_differ names.items ≡ true) }
    ensures few { IfOk result (λ names. length names.items ≤ 6) }
{
    let Some(inputs) = input_texts(alloc, value)? else {
        return Err(bad_field(alloc, master, b"inputs"));
    };
    if !differ(alloc, &inputs)? {
        return Err(bad_field(alloc, master, b"inputs"));
    }
    if MAX_INPUTS < inputs.len() {
        return Err(too_many_inputs(alloc, master));
    }
    Ok(inputs)
}

/// The table of the values at all rows.
fn table_of_word(inputs: &[Name], word: u64) -> TruthTable
    requires { length inputs.now ≤ MAX_INPUTS }
    ensures { (e : Expression) → ((r : ℕ) → r < MAX_ROWS → bit word r ≡ value_at inputs.now e r) → result ≡ table_by inputs.now e }
{
    TruthTable::of_rows(inputs.len() as u8, word)
}

/// The table of an expression over the inputs.
fn expression_table(
    alloc: Global,
    master: &[u8],
    pin: &[u8],
    inputs: &[Name],
    text: &[u8],
) -> Result<TruthTable, FuncFault>
    requires { length inputs.now ≤ MAX_INPUTS }
    ensures { GivesValue (λ t. t) (expressed master.now pin.now inputs.now (expression_in text.now)) result }
{
    let part = match read_expression(inputs, text) {
        Ok(part) => part,
        Err(place) => return Err(bad_expression(alloc, master, pin, place as u32)),
    };
    if let Some(name) = part.unknown {
        return Err(unknown_input(alloc, master, pin, name));
    }
    Ok(table_of_word(inputs, part.word))
}

/// The table of an output's text.
fn output_table(
    alloc: Global,
    master: &[u8],
    pin: &[u8],
    inputs: &[Name],
    text: &[u8],
) -> Result<TruthTable, FuncFault>
    requires { length inputs.now ≤ MAX_INPUTS }
    ensures { GivesValue (λ t. t) (table_said master.now pin.now inputs.now text.now) result }
{
    if !has_only_bits(text) {
        return expression_table(alloc, master, pin, inputs, text);
    }
    match read_table(inputs.len() as u8, text) {
        Some(table) => Ok(table),
        None => Err(bad_table(alloc, master, pin)),
    }
}

/// The table of an output.
fn output_of(
    alloc: Global,
    master: &[u8],
    pin: &[u8],
    inputs: &[Name],
    value: &Value,
) -> Result<TruthTable, FuncFault>
    requires { length inputs.now ≤ MAX_INPUTS }
    ensures { GivesValue (λ t. t) (output_said master.now pin.now inputs.now (view value.now)) result }
{
    match value.as_str() {
        Some(text) => output_table(alloc, master, pin, inputs, text.as_bytes()),
        None => Err(bad_field(alloc, master, b"outputs")),
    }
}

/// The outputs of these pins.
fn outputs(
    alloc: Global,
    master: &[u8],
    inputs: &[Name],
    pins: &Table,
) -> Result<Vec<OutputFn>, FuncFault>
    requires { length inputs.now ≤ MAX_INPUTS }
    ensures { GivesValue (λ outputs. outputs.items) (outputs_of master.now inputs.now (table_view pins.now)) result }
{
    let mut found = Vec::new(alloc);
    for (pin, value) in pins {
        let table = output_of(alloc, master, pin.as_bytes(), inputs, value)?;
        let pin = Name::of(alloc, pin.as_bytes())?;
        found.push(OutputFn { pin, table })?;
    }
    Ok(found)
}

fn has_name(names: &[Name], key: &str) -> bool
    ensures { result ≡ list_any (λ name. bytes_eq name key.now) names.now }
{
    names.iter().any(|name| name.is(key.as_bytes()))
}

/// Whether no key is one of the names.
fn has_none(names: &[Name], fields: &Table) -> bool
    ensures { result ≡ no_key_among names.now (table_view fields.now) }
{
    for (key, _) in fields {
        if has_name(names, key.as_str()) {
            return false;
        }
    }
    true
}

fn is_few(count: usize) -> bool
    ensures { result ≡ (nat_le 1 count && nat_le count MAX_OUTPUTS) }
{
    1 <= count && count <= MAX_OUTPUTS
}

/// Whether a master may have these output pins: one to eight, none of which is an input.
fn may_be_outputs(inputs: &[Name], pins: &Table) -> bool
    ensures value { result ≡ may_be inputs.now (table_view pins.now) }
    ensures order { IsStrictlySortedBy string_cmp (keys_of pins.now.entries) }
{
    is_few(pins.len()) && has_none(inputs, pins)
}

/// The outputs of a master.
fn outputs_of_master(
    alloc: Global,
    master: &[u8],
    inputs: &[Name],
    value: &Value,
) -> Result<Vec<OutputFn>, FuncFault>
    requires { length inputs.now ≤ MAX_INPUTS }
    ensures said { GivesValue (λ outputs. outputs.items) (outputs_in master.now (view value.now) inputs.now) result }
    ensures fit { IfOk result (λ outputs. all_differ inputs.now ≡ true → is_master inputs.now outputs.items ≡ true) }
{
    let Some(pins) = table_at(value, "outputs") else {
        return Err(bad_field(alloc, master, b"outputs"));
    };
    if !may_be_outputs(inputs, pins) {
        return Err(bad_field(alloc, master, b"outputs"));
    }
    outputs(alloc, master, inputs, pins)
}

fn is_field(key: &str) -> bool
    ensures { result ≡ field_of_master key.now }
{
    key == "inputs" || key == "outputs"
}

/// The first field that no master has.
fn other_field(fields: &Table) -> Option<&str>
    ensures { (master : List ℕ) → MatchOption result (no_other master (table_view fields.now) ≡ Ok tt) (λ key. no_other master (table_view fields.now) ≡ Err (BadField master key.now)) }
{
    for (key, _) in fields {
        if !is_field(key.as_str()) {
            return Some(key.as_str());
        }
    }
    None
}

/// The master of this name.
fn read_master(alloc: Global, name: &str, value: &Value) -> Result<MasterFn, FuncFault>
    ensures said { GivesValue (λ m. m) (master_of name.now (view value.now)) result }
    ensures makes { IfOk result (λ m. is_master m.inputs m.outputs ≡ true) }
{
    let bytes = name.as_bytes();
    let Some(fields) = value.as_table() else {
        return Err(bad_field(alloc, bytes, b"inputs"));
    };
    let inputs = inputs_of_master(alloc, bytes, value)?;
    let outputs = outputs_of_master(alloc, bytes, &inputs, value)?;
    if let Some(key) = other_field(fields) {
        return Err(bad_field(alloc, bytes, key.as_bytes()));
    }
    let name = Name::of(alloc, bytes)?;
    Ok(MasterFn::of(alloc, name, inputs, outputs)?)
}

/// All masters, in the order of the document.
pub fn read_masters(alloc: Global, document: &Table) -> Result<Vec<MasterFn>, FuncFault>
    ensures said { GivesValue (λ masters. masters.items) (masters_of (table_view document.now)) result }
    ensures make { IfOk result (λ masters. All (λ m. is_master m.inputs m.outputs ≡ true) masters.items) }
{
    let mut masters = Vec::new(alloc);
    for (name, value) in document {
        masters.push(read_master(alloc, name.as_str(), value)?)?;
    }
    Ok(masters)
}
