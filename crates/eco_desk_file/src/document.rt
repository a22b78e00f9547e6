//! The desk file of a TOML document.

ghost use Rattle.std.specs.Prelude.{◌≡◌, IfOk, IsTrue, Ok, Err, MatchOption, option_map, option_copied, option_and_then, not, codes};
ghost use Rattle.std.specs.Str.{bytes_eq};
ghost use Rattle.toml.specs.Data.{as_str, as_array, get_member};
ghost use Rattle.toml.specs.View.{view, array_view, table_view};
ghost use Rattle.eco_func.specs.FunctionsFile.{texts_of};
ghost use Rattle.eco_common.specs.NameBytes.{is_name as can_be_name};
ghost use Rattle.eco_desk_file.specs.Desk.{are_prefixes as can_be_prefixes};
ghost use Rattle.eco_desk_file.specs.DeskText.{GivesField, or_field, name_at as name_said, low_at as low_said, prefixes_at as prefixes_said, is_desk_field as is_field_said, no_other_field, desk_of as desk_said};

use crate::desk::DeskFile;
use crate::fault::{DeskFault, bad_field};
use crate::names::are_prefixes;
use eco_common::{Memory, Name, is_name};
use eco_func::texts;
use std::alloc::Global;
use toml::Value;
use toml::value::{Array, Table};

/// The value at a field.
fn field_at<'a>(document: &'a Table, field: &str) -> Option<&'a Value>
    ensures { option_map (λ value. view value.now) result ≡ get_member field.now (table_view document.now) }
{
    document.get(field)
}

/// The text at a field.
fn text_at<'a>(document: &'a Table, field: &str) -> Option<&'a str>
    ensures { option_copied result ≡ option_and_then as_str (get_member field.now (table_view document.now)) }
{
    field_at(document, field)?.as_str()
}

/// The name at a field.
fn name_at<'a>(document: &'a Table, field: &str) -> Option<&'a str>
    ensures { option_copied result ≡ name_said field.now (table_view document.now) }
{
    let text = text_at(document, field)?;
    if is_name(text.as_bytes()) {
        Some(text)
    } else {
        None
    }
}

/// The name of the net that is tied to 0.
fn low_at<'a>(document: &'a Table, high: &[u8]) -> Option<&'a str>
    ensures { option_copied result ≡ low_said high.now (table_view document.now) }
{
    let low = name_at(document, "tie_low")?;
    if low.as_bytes() != high {
        Some(low)
    } else {
        None
    }
}

/// The list at a field.
fn list_at<'a>(document: &'a Table, field: &str) -> Option<&'a Array>
    ensures { option_map (λ list. array_view list.now) result ≡ option_and_then as_array (get_member field.now (table_view document.now)) }
{
    field_at(document, field)?.as_array()
}

/// The texts at the field `spares`.
fn spare_texts(alloc: Global, document: &Table) -> Result<Option<Vec<Name>>, Memory>
    ensures { IfOk result (λ found. option_map (λ names. names.items) found ≡ option_and_then texts_of (option_and_then as_array (get_member (codes "spares") (table_view document.now)))) }
{
    match list_at(document, "spares") {
        Some(list) => texts(alloc, list),
        None => Ok(None),
    }
}

fn is_field(key: &str) -> bool
    ensures { result ≡ is_field_said key.now }
{
    key == "tie_high" || key == "tie_low" || key == "spares"
}

/// The first field that a desk file doesn't have.
fn other_field(document: &Table) -> Option<&str>
    ensures { MatchOption result (no_other_field (table_view document.now) ≡ Ok tt) (λ key. no_other_field (table_view document.now) ≡ Err key.now) }
{
    for (key, _) in document {
        if !is_field(key.as_str()) {
            return Some(key.as_str());
        }
    }
    None
}

/// The field `tie_high`.
fn read_high(alloc: Global, document: &Table) -> Result<Name, DeskFault>
    ensures said { GivesField (λ n. n) (or_field (codes "tie_high") (name_said (codes "tie_high") (table_view document.now))) result }
    ensures is_name { IfOk result (λ n. IsTrue (can_be_name n)) }
{
    match name_at(document, "tie_high") {
        Some(name) => Ok(Name::of(alloc, name.as_bytes())?),
        None => Err(bad_field(alloc, b"tie_high")),
    }
}

/// The field `tie_low`.
fn read_low(alloc: Global, document: &Table, high: &[u8]) -> Result<Name, DeskFault>
    ensures said { GivesField (λ n. n) (or_field (codes "tie_low") (low_said high.now (table_view document.now))) result }
    ensures is_name { IfOk result (λ n. IsTrue (can_be_name n)) }
    ensures other { IfOk result (λ n. IsTrue (not (bytes_eq n high.now))) }
{
    match low_at(document, high) {
        Some(name) => Ok(Name::of(alloc, name.as_bytes())?),
        None => Err(bad_field(alloc, b"tie_low")),
    }
}

/// The field `spares`.
fn read_prefixes(alloc: Global, document: &Table) -> Result<Vec<Name>, DeskFault>
    ensures said { GivesField (λ names. names.items) (or_field (codes "spares") (prefixes_said (table_view document.now))) result }
    ensures are_prefixes { IfOk result (λ names. IsTrue (can_be_prefixes names.items)) }
{
    match spare_texts(alloc, document)? {
        Some(names) if are_prefixes(&names) => Ok(names),
        _ => Err(bad_field(alloc, b"spares")),
    }
}

/// The desk file of a document, or the first field at fault.
pub fn desk_of(alloc: Global, document: &Table) -> Result<DeskFile, DeskFault>
    ensures { GivesField (λ desk. desk) (desk_said (table_view document.now)) result }
{
    let high = read_high(alloc, document)?;
    let low = read_low(alloc, document, high.bytes())?;
    let prefixes = read_prefixes(alloc, document)?;
    match other_field(document) {
        Some(key) => Err(bad_field(alloc, key.as_bytes())),
        None => Ok(DeskFile::of(high, low, prefixes)),
    }
}
