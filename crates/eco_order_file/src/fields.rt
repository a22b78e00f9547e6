//! The fields of JSON objects.

ghost use Rattle.std.specs.Prelude.{◌≡◌, ◌≤◌, Ok, Err, IfOk, MatchOption, length, option_map};
ghost use Rattle.serde_json.specs.Find.{get};
ghost use Rattle.serde_json.specs.View.{view, members_view};
ghost use Rattle.eco_order_file.specs.Orders.{IsNear};
ghost use Rattle.eco_order_file.specs.Given.{Gives, IsBad, is_one_of};
ghost use Rattle.eco_order_file.specs.Documents.{text as text_said, base_name as base_name_said, or_null, inputs as inputs_said, table as table_said, point as point_said, field_step, field, list, no_other};

use crate::fault::{FieldFault, bad_itself, in_field};
use crate::lists::NameList;
use crate::values::{base_name, base_name_or_null, inputs, point_or_null, table, text, texts};
use eco_common::{Name, Point};
use eco_func::Table;
use serde_json::{Map, Value};
use std::alloc::Global;

/// The value of a field.
pub fn field_of<'a>(object: &'a Value, name: &str) -> Option<&'a Value>
    ensures { option_map (λ v. view v.now) result ≡ get name.now (view object.now) }
{
    object.get(name)
}

/// The fault of a field that is missing.
pub fn missing(alloc: Global, name: &str) -> FieldFault
    ensures { IsBad (field_step name.now) result }
{
    in_field(alloc, name, bad_itself(alloc))
}

/// The text of a field.
pub fn text_field(alloc: Global, object: &Value, name: &str) -> Result<Name, FieldFault>
    ensures { Gives (λ n. n) (field text_said name.now (view object.now)) result }
{
    match field_of(object, name) {
        Some(value) => match text(alloc, value) {
            Ok(text) => Ok(text),
            Err(fault) => Err(in_field(alloc, name, fault)),
        },
        None => Err(missing(alloc, name)),
    }
}

/// The name at a field.
pub fn base_name_field(alloc: Global, object: &Value, name: &str) -> Result<Name, FieldFault>
    ensures { Gives (λ n. n) (field base_name_said name.now (view object.now)) result }
{
    match field_of(object, name) {
        Some(value) => match base_name(alloc, value) {
            Ok(name) => Ok(name),
            Err(fault) => Err(in_field(alloc, name, fault)),
        },
        None => Err(missing(alloc, name)),
    }
}

/// Null or the name at a field.
pub fn base_name_or_null_field(
    alloc: Global,
    object: &Value,
    name: &str,
) -> Result<Option<Name>, FieldFault>
    ensures { Gives (λ n. n) (field (or_null base_name_said) name.now (view object.now)) result }
{
    match field_of(object, name) {
        Some(value) => match base_name_or_null(alloc, value) {
            Ok(name) => Ok(name),
            Err(fault) => Err(in_field(alloc, name, fault)),
        },
        None => Err(missing(alloc, name)),
    }
}

/// The texts of a field.
pub fn texts_field(alloc: Global, object: &Value, name: &str) -> Result<NameList, FieldFault>
    ensures { Gives (λ n. n) (field (list text_said) name.now (view object.now)) result }
{
    match field_of(object, name) {
        Some(value) => match texts(alloc, value) {
            Ok(names) => Ok(names),
            Err(fault) => Err(in_field(alloc, name, fault)),
        },
        None => Err(missing(alloc, name)),
    }
}

/// A gate's input nets at a field.
pub fn inputs_field(alloc: Global, object: &Value, name: &str) -> Result<NameList, FieldFault>
    ensures said { Gives (λ n. n) (field inputs_said name.now (view object.now)) result }
    ensures few { IfOk result (λ n. length n ≤ 6) }
{
    match field_of(object, name) {
        Some(value) => match inputs(alloc, value) {
            Ok(names) => Ok(names),
            Err(fault) => Err(in_field(alloc, name, fault)),
        },
        None => Err(missing(alloc, name)),
    }
}

/// A gate's table at a field.
pub fn table_field(
    alloc: Global,
    inputs: u8,
    object: &Value,
    name: &str,
) -> Result<Table, FieldFault>
    requires { inputs ≤ 6 }
    ensures { Gives (λ t. t) (field (table_said inputs) name.now (view object.now)) result }
{
    match field_of(object, name) {
        Some(value) => match table(alloc, inputs, value) {
            Ok(table) => Ok(table),
            Err(fault) => Err(in_field(alloc, name, fault)),
        },
        None => Err(missing(alloc, name)),
    }
}

/// Null or a point at a field.
pub fn point_or_null_field(
    alloc: Global,
    object: &Value,
    name: &str,
) -> Result<Option<Point>, FieldFault>
    ensures said { Gives (λ p. p) (field (or_null point_said) name.now (view object.now)) result }
    ensures near { IfOk result IsNear }
{
    match field_of(object, name) {
        Some(value) => match point_or_null(alloc, value) {
            Ok(point) => Ok(point),
            Err(fault) => Err(in_field(alloc, name, fault)),
        },
        None => Err(missing(alloc, name)),
    }
}

/// Whether the name is one of these fields.
fn is_field(name: &str, fields: &[&str]) -> bool
    ensures { result ≡ is_one_of fields.now name.now }
{
    fields.iter().any(|field| *field == name)
}

/// The first field of an object that is none of these.
pub fn other_field<'a>(object: &'a Map<String, Value>, fields: &[&str]) -> Option<&'a str>
    ensures { MatchOption result (no_other (is_one_of fields.now) (members_view object.now.entries) ≡ Ok tt) (λ name. no_other (is_one_of fields.now) (members_view object.now.entries) ≡ Err (field_step name.now)) }
{
    for (name, _) in object {
        if !is_field(name.as_str(), fields) {
            return Some(name.as_str());
        }
    }
    None
}
