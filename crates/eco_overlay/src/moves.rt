//! Pins that are put on nets, by component and then by pin.

ghost use Rattle.std.specs.Prelude.{◌≡◌, map, OnOk};
ghost use Rattle.std.specs.List.{list_all};
ghost use Rattle.std.specs.List.Sorted.{IsPermutation};
ghost use Rattle.eco_issued_laws.specs.Changes.{stays_on};
ghost use Rattle.eco_overlay.specs.PinMoves.{new_joint, moved_pin, pin_cmp, names_in, ArePinsApart, AreInOrder, IsPlaceOf};

use crate::pin_move::PinMove;
use eco_def::{Joint, Joints};
use eco_issued_laws::is_no_component;
use eco_text::bytes_at;
use std::cmp::Ordering;

/// How a move's pin stands to another pin.
fn pin_order(moved: &PinMove<'_>, comp: &[u8], pin: &[u8]) -> Ordering
    ensures { result ≡ pin_cmp (moved_pin moved.now) (record { comp = comp.now; pin = pin.now }) }
{
    match moved.comp.cmp(&comp) {
        Ordering::Equal => moved.pin.cmp(&pin),
        other => other,
    }
}

/// Puts moves of different pins in order.
pub fn put_in_order(moves: &mut Vec<PinMove<'_>>)
    requires { ArePinsApart (map new_joint moves.old.items) }
    ensures permutation { IsPermutation moves.old.items moves.new.items }
    ensures order { AreInOrder moves.new.items }
{
    moves.sort_unstable_by(|first, second| pin_order(first, second.comp, second.pin));
}

/// The place of a pin among the moves.
pub fn place_of(moves: &[PinMove<'_>], comp: &[u8], pin: &[u8]) -> Option<usize>
    requires { AreInOrder moves.now }
    ensures { IsPlaceOf moves.now (record { comp = comp.now; pin = pin.now }) result }
{
    match moves.binary_search_by(|moved| pin_order(moved, comp, pin)) {
        Ok(place) => Some(place),
        Err(_) => None,
    }
}

/// Whether a joint of a net stays there.
pub fn stays(text: &[u8], joint: Joint, moves: &[PinMove<'_>], net: &[u8]) -> bool
    requires { AreInOrder moves.now }
    ensures { result ≡ stays_on (map new_joint moves.now) net.now (names_in text.now joint) }
{
    let comp = bytes_at(text, joint.comp);
    if is_no_component(comp) {
        return true;
    }
    match place_of(moves, comp, bytes_at(text, joint.pin)) {
        Some(place) => moves[place].net == net,
        None => true,
    }
}

/// Whether all of them stay.
pub fn all_stay(text: &[u8], joints: &Joints, moves: &[PinMove<'_>], net: &[u8]) -> bool
    requires { AreInOrder moves.now }
    ensures { result ≡ list_all (λ j. stays_on (map new_joint moves.now) net.now (names_in text.now j)) joints.now }
{
    joints.iter().all(|joint| stays(text, joint, moves, net))
}
