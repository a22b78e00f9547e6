//! What JSON values say: texts, names, tables, points and lists of them.

ghost use Rattle.std.specs.Prelude.{◌≡◌, ◌≤◌, true, Ok, Err, IfOk, IfSome, codes, length, option_map, option_copied, option_and_then};
ghost use Rattle.serde_json.specs.Find.{as_str, as_array, as_number, as_i64, get};
ghost use Rattle.serde_json.specs.View.{view, items_view, members_view};
ghost use Rattle.eco_common.specs.NameBytes.{is_name as can_be_name};
ghost use Rattle.eco_order_file.specs.Orders.{is_coordinate, IsNear};
ghost use Rattle.eco_order_file.specs.Given.{Gives, IsBad};
ghost use Rattle.eco_order_file.specs.Documents.{or_fault, where_it, text as text_said, base_name as base_name_said, or_null, inputs as inputs_said, table as table_said, coordinate as coordinate_said, point as point_said, two as two_said, are_few, below, item_step, field_step, field, each, list, no_other};

use crate::fault::{FieldFault, bad, bad_itself, in_field, in_item};
use crate::limits::MAX_GATE_INPUTS;
use crate::lists::NameList;
use eco_common::{Name, Point, is_name};
use eco_func::{Table, read_table};
use serde_json::Value;
use std::alloc::Global;

/// A text.
pub fn text(alloc: Global, value: &Value) -> Result<Name, FieldFault>
    ensures { Gives (λ n. n) (text_said (view value.now)) result }
{
    match value.as_str() {
        Some(text) => Ok(Name::of(alloc, text.as_bytes())?),
        None => Err(bad_itself(alloc)),
    }
}

/// The text of a name in a LEF or DEF text.
fn base_text(value: &Value) -> Option<&str>
    ensures { option_copied result ≡ option_and_then (where_it can_be_name) (as_str (view value.now)) }
{
    let text = value.as_str()?;
    if is_name(text.as_bytes()) {
        Some(text)
    } else {
        None
    }
}

/// A name of a LEF or DEF text.
pub fn base_name(alloc: Global, value: &Value) -> Result<Name, FieldFault>
    ensures { Gives (λ n. n) (base_name_said (view value.now)) result }
{
    match base_text(value) {
        Some(text) => Ok(Name::of(alloc, text.as_bytes())?),
        None => Err(bad_itself(alloc)),
    }
}

/// Null, or a name of a LEF or DEF text.
pub fn base_name_or_null(alloc: Global, value: &Value) -> Result<Option<Name>, FieldFault>
    ensures { Gives (λ n. n) (or_null base_name_said (view value.now)) result }
{
    if value.is_null() {
        Ok(None)
    } else {
        Ok(Some(base_name(alloc, value)?))
    }
}

/// The table of so many inputs.
pub fn table(alloc: Global, inputs: u8, value: &Value) -> Result<Table, FieldFault>
    requires { inputs ≤ 6 }
    ensures { Gives (λ t. t) (table_said inputs (view value.now)) result }
{
    match value.as_str() {
        Some(text) => match read_table(inputs, text.as_bytes()) {
            Some(table) => Ok(table),
            None => Err(bad_itself(alloc)),
        },
        None => Err(bad_itself(alloc)),
    }
}

/// A number within i32.
fn whole(value: &Value) -> Option<i32>
    ensures { result ≡ option_and_then (where_it is_coordinate) (option_and_then as_i64 (as_number (view value.now))) }
{
    let number = value.as_i64()?;
    if -0x8000_0000 <= number && number <= 0x7fff_ffff {
        Some(number as i32)
    } else {
        None
    }
}

/// A coordinate.
fn coordinate(alloc: Global, value: &Value) -> Result<i32, FieldFault>
    ensures { Gives (λ n. n) (coordinate_said (view value.now)) result }
{
    match whole(value) {
        Some(number) => Ok(number),
        None => Err(bad_itself(alloc)),
    }
}

/// The coordinate at a place of a list.
fn coordinate_at(alloc: Global, place: usize, value: &Value) -> Result<i32, FieldFault>
    ensures { Gives (λ n. n) (below (item_step place) (coordinate_said (view value.now))) result }
{
    match coordinate(alloc, value) {
        Ok(number) => Ok(number),
        Err(fault) => Err(in_item(alloc, place, fault)),
    }
}

/// The items of a list of two.
fn two(value: &Value) -> Option<(&Value, &Value)>
    ensures { option_map (λ p. (view p.0.now, view p.1.now)) result ≡ option_and_then two_said (as_array (view value.now)) }
{
    match value.as_array()?.as_slice() {
        [] => None,
        [_] => None,
        [first, second] => Some((first, second)),
        [_, _, _, ..] => None,
    }
}

/// A list of two coordinates.
fn point(alloc: Global, value: &Value) -> Result<Point, FieldFault>
    ensures said { Gives (λ p. p) (point_said (view value.now)) result }
    ensures near { IfOk result (λ p. (is_coordinate p.x ≡ true) × (is_coordinate p.y ≡ true)) }
{
    match two(value) {
        Some((first, second)) => {
            let x = coordinate_at(alloc, 0, first)?;
            let y = coordinate_at(alloc, 1, second)?;
            Ok(Point {
                x: i64::from(x),
                y: i64::from(y),
            })
        }
        None => Err(bad_itself(alloc)),
    }
}

/// Null, or a list of two coordinates.
pub fn point_or_null(alloc: Global, value: &Value) -> Result<Option<Point>, FieldFault>
    ensures said { Gives (λ p. p) (or_null point_said (view value.now)) result }
    ensures near { IfOk result IsNear }
{
    if value.is_null() {
        Ok(None)
    } else {
        Ok(Some(point(alloc, value)?))
    }
}

/// The text at a place of a list.
fn text_at(alloc: Global, place: usize, value: &Value) -> Result<Name, FieldFault>
    ensures { Gives (λ n. n) (below (item_step place) (text_said (view value.now))) result }
{
    match text(alloc, value) {
        Ok(name) => Ok(name),
        Err(fault) => Err(in_item(alloc, place, fault)),
    }
}

/// A list of texts.
pub fn texts(alloc: Global, value: &Value) -> Result<NameList, FieldFault>
    ensures { Gives (λ n. n) (list text_said (view value.now)) result }
{
    match value.as_array() {
        Some(items) => each_text(alloc, items),
        None => Err(bad_itself(alloc)),
    }
}

fn each_text(alloc: Global, items: &[Value]) -> Result<NameList, FieldFault>
    ensures { Gives (λ n. n) (each text_said 0 (items_view items.now)) result }
{
    let mut names = Vec::new(alloc);
    for (place, item) in items.iter().enumerate() {
        names.push(text_at(alloc, place, item)?)?;
    }
    Ok(NameList::of(names))
}

/// The name of a LEF or DEF text at a place of a list.
fn base_name_at(alloc: Global, place: usize, value: &Value) -> Result<Name, FieldFault>
    ensures { Gives (λ n. n) (below (item_step place) (base_name_said (view value.now))) result }
{
    match base_name(alloc, value) {
        Ok(name) => Ok(name),
        Err(fault) => Err(in_item(alloc, place, fault)),
    }
}

fn each_base_name(alloc: Global, items: &[Value]) -> Result<NameList, FieldFault>
    ensures said { Gives (λ n. n) (each base_name_said 0 (items_view items.now)) result }
    ensures count { IfOk result (λ n. length n ≡ length items.now) }
{
    let mut names = Vec::new(alloc);
    for (place, item) in items.iter().enumerate() {
        names.push(base_name_at(alloc, place, item)?)?;
    }
    Ok(NameList::of(names))
}

/// A list of at most six.
fn few(value: &Value) -> Option<&Vec<Value>>
    ensures few { IfSome result (λ v. length v.now.items ≤ 6) }
    ensures value { option_map (λ v. items_view v.now.items) result ≡ option_and_then (where_it are_few) (as_array (view value.now)) }
{
    let items = value.as_array()?;
    let few = items.len() <= MAX_GATE_INPUTS;
    if few { Some(items) } else { None }
}

/// The nets at a gate's inputs.
pub fn inputs(alloc: Global, value: &Value) -> Result<NameList, FieldFault>
    ensures said { Gives (λ n. n) (inputs_said (view value.now)) result }
    ensures few { IfOk result (λ n. length n ≤ 6) }
{
    match few(value) {
        Some(items) => each_base_name(alloc, items),
        None => Err(bad_itself(alloc)),
    }
}
