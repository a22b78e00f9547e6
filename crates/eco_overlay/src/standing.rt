//! Which pins stand on their nets already.

ghost use Rattle.std.specs.Prelude.{◌≡◌, map};
ghost use Rattle.eco_text.specs.Cursor.{word_bytes};
ghost use Rattle.eco_overlay.specs.PinMoves.{names_in, marked, marked_by, marked_in, AreInOrder};

use crate::moves::place_of;
use crate::pin_move::PinMove;
use eco_def::{Joint, Joints, NetStatement};
use eco_issued_laws::is_no_component;
use eco_text::bytes_at;

/// Marks the move of a joint of a net, where it stands on that net.
fn mark_joint(text: &[u8], joint: Joint, net: &[u8], moves: &mut [PinMove<'_>])
    requires { AreInOrder moves.old }
    ensures { moves.new ≡ map (marked (names_in text.now joint) net.now) moves.old }
{
    let comp = bytes_at(text, joint.comp);
    if is_no_component(comp) {
        return;
    }
    if let Some(place) = place_of(moves, comp, bytes_at(text, joint.pin)) {
        if moves[place].net == net {
            moves[place].stands = true;
        }
    }
}

/// Marks the moves of the joints of a net's statement that stand on that net.
fn mark_joints(text: &[u8], joints: &Joints, net: &[u8], moves: &mut [PinMove<'_>])
    requires { AreInOrder moves.old }
    ensures { moves.new ≡ map (marked_by text.now net.now joints.now) moves.old }
{
    for joint in joints.iter() {
        mark_joint(text, joint, net, moves);
    }
}

/// Marks the moves of the pins that stand on their nets.
pub fn mark_standing(text: &[u8], nets: &[NetStatement], moves: &mut [PinMove<'_>])
    requires { AreInOrder moves.old }
    ensures { moves.new ≡ map (marked_in text.now nets.now) moves.old }
{
    for net in nets {
        mark_joints(text, &net.joints, bytes_at(text, net.name), moves);
    }
}
