//! Moves of JSON values.

ghost use Rattle.std.specs.Prelude.{◌≡◌, Ok, Err, Some};
ghost use Rattle.serde_json.specs.Find.{as_object};
ghost use Rattle.serde_json.specs.View.{view, items_view, members_view};
ghost use Rattle.eco_order_file.specs.Given.{Gives};
ghost use Rattle.eco_order_file.specs.Documents.{item_step, below, field, each, list, move as move_said};

use crate::fault::{FieldFault, bad_itself, in_field, in_item};
use crate::fields::{base_name_field, base_name_or_null_field, field_of, missing, other_field};
use crate::lists::MoveList;
use crate::order::Move;
use serde_json::{Map, Value};
use std::alloc::Global;

/// The move of an object's fields.
fn move_of(alloc: Global, value: &Value, object: &Map<String, Value>) -> Result<Move, FieldFault>
    requires { as_object (view value.now) ≡ Some (members_view object.now.entries) }
    ensures { Gives (λ m. m) (move_said (view value.now)) result }
{
    let comp = base_name_field(alloc, value, "comp")?;
    let pin = base_name_field(alloc, value, "pin")?;
    let from_net = base_name_or_null_field(alloc, value, "from")?;
    let to_net = base_name_field(alloc, value, "to")?;
    match other_field(object, &["comp", "pin", "from", "to"]) {
        Some(other) => Err(missing(alloc, other)),
        None => Ok(Move {
            comp,
            pin,
            from_net,
            to_net,
        }),
    }
}

/// A move.
fn move_(alloc: Global, value: &Value) -> Result<Move, FieldFault>
    ensures { Gives (λ m. m) (move_said (view value.now)) result }
{
    match value.as_object() {
        Some(object) => move_of(alloc, value, object),
        None => Err(bad_itself(alloc)),
    }
}

fn move_at(alloc: Global, place: usize, value: &Value) -> Result<Move, FieldFault>
    ensures { Gives (λ m. m) (below (item_step place) (move_said (view value.now))) result }
{
    match move_(alloc, value) {
        Ok(moved) => Ok(moved),
        Err(fault) => Err(in_item(alloc, place, fault)),
    }
}

fn each_move(alloc: Global, items: &[Value]) -> Result<MoveList, FieldFault>
    ensures { Gives (λ m. m) (each move_said 0 (items_view items.now)) result }
{
    let mut moves = Vec::new(alloc);
    for (place, item) in items.iter().enumerate() {
        moves.push(move_at(alloc, place, item)?)?;
    }
    Ok(MoveList::of(moves))
}

/// A list of moves.
fn moves(alloc: Global, value: &Value) -> Result<MoveList, FieldFault>
    ensures { Gives (λ m. m) (list move_said (view value.now)) result }
{
    match value.as_array() {
        Some(items) => each_move(alloc, items),
        None => Err(bad_itself(alloc)),
    }
}

/// The moves of a field.
pub fn moves_field(alloc: Global, object: &Value, name: &str) -> Result<MoveList, FieldFault>
    ensures { Gives (λ m. m) (field (list move_said) name.now (view object.now)) result }
{
    match field_of(object, name) {
        Some(value) => match moves(alloc, value) {
            Ok(moves) => Ok(moves),
            Err(fault) => Err(in_field(alloc, name, fault)),
        },
        None => Err(missing(alloc, name)),
    }
}
