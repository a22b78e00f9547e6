//! Writing a net's statement.

ghost use Rattle.std.specs.Prelude.{◌≡◌, ◌++◌, map, OnOk};
ghost use Rattle.std.specs.List.{flat_map};
ghost use Rattle.eco_def.specs.View.{joint_in, net_in};
ghost use Rattle.eco_issued_laws.specs.Printing.{spaced};
ghost use Rattle.eco_issued_laws.specs.Changes.{stays_on};
ghost use Rattle.eco_issued_laws.specs.Issued.{kept_text, joint_words, tail_text, changed_text, fresh_text};
ghost use Rattle.eco_overlay.specs.PinMoves.{new_joint, moved_pin, last_end, AreInOrder};
ghost use Rattle.eco_overlay.specs.NetChanges.{moves_on, pins_for, changes_in};

use crate::bytes::put;
use crate::coming::goes_to_ordinary;
use crate::moves::stays;
use crate::net_changes::{Added, NetChanges};
use crate::pin_move::PinMove;
use eco_def::{Joint, Joints, NetStatement};
use eco_text::{between, bytes_at};
use std::alloc::AllocError;

/// Appends a joint that stays, after a blank.
fn put_joint(
    bytes: &mut Vec<u8>,
    text: &[u8],
    joint: Joint,
    moves: &[PinMove<'_>],
    net: &[u8],
) -> Result<(), AllocError>
    requires { AreInOrder moves.now }
    ensures { OnOk result (bytes.new.items ≡ bytes.old.items ++ kept_text text.now (stays_on (map new_joint moves.now) net.now) (joint_in text.now joint)) }
{
    if !stays(text, joint, moves, net) {
        return Ok(());
    }
    put(bytes, &[b" ", between(text, joint.start, joint.end)])
}

/// Appends the joints that stay.
fn put_joints(
    bytes: &mut Vec<u8>,
    text: &[u8],
    joints: &Joints,
    moves: &[PinMove<'_>],
    net: &[u8],
) -> Result<(), AllocError>
    requires { AreInOrder moves.now }
    ensures { OnOk result (bytes.new.items ≡ bytes.old.items ++ flat_map (λ j. kept_text text.now (stays_on (map new_joint moves.now) net.now) (joint_in text.now j)) joints.now) }
{
    for joint in joints.iter() {
        put_joint(bytes, text, joint, moves, net)?;
    }
    Ok(())
}

/// Appends a pin that comes.
fn put_pin(bytes: &mut Vec<u8>, pin: &PinMove<'_>) -> Result<(), AllocError>
    ensures { OnOk result (bytes.new.items ≡ bytes.old.items ++ spaced (joint_words (moved_pin pin.now))) }
{
    put(bytes, &[b" ( ", pin.comp, b" ", pin.pin, b" )"])
}

/// Appends the pins that come.
fn put_pins(bytes: &mut Vec<u8>, pins: &[PinMove<'_>]) -> Result<(), AllocError>
    ensures { OnOk result (bytes.new.items ≡ bytes.old.items ++ flat_map (λ m. spaced (joint_words (moved_pin m))) pins.now) }
{
    for pin in pins {
        put_pin(bytes, pin)?;
    }
    Ok(())
}

/// Appends the pins that come to a net.
fn put_coming(bytes: &mut Vec<u8>, added: &Added<'_>, net: &[u8]) -> Result<(), AllocError>
    ensures { OnOk result (bytes.new.items ≡ bytes.old.items ++ flat_map (λ m. spaced (joint_words (moved_pin m))) (moves_on added.now net.now)) }
{
    match added.get(net) {
        Some(pins) => put_pins(bytes, pins),
        None => Ok(()),
    }
}

/// Appends the pins that come to a net's statement.
fn put_added(
    bytes: &mut Vec<u8>,
    changes: &NetChanges<'_>,
    special: bool,
    net: &[u8],
) -> Result<(), AllocError>
    ensures { OnOk result (bytes.new.items ≡ bytes.old.items ++ flat_map (λ m. spaced (joint_words (moved_pin m))) (pins_for changes.now special net.now)) }
{
    if goes_to_ordinary(changes, special, net) {
        return Ok(());
    }
    put_coming(bytes, &changes.added, net)
}

/// The end of a statement's last joint, or of its name.
#[tactic(auto, using(crate::proofs::Writing::last_end_more))]
fn joints_end(net: &NetStatement) -> u32
    ensures { result ≡ last_end net.now.name.end net.now.joints }
{
    let mut end = net.name.end;
    for joint in net.joints.iter() {
        end = joint.end;
    }
    end
}

/// Appends all clauses of a statement of SPECIALNETS, or the use of one of NETS, and the end.
fn put_tail(bytes: &mut Vec<u8>, text: &[u8], net: &NetStatement) -> Result<(), AllocError>
    ensures { OnOk result (bytes.new.items ≡ bytes.old.items ++ tail_text text.now net.now.special (net_in text.now net.now)) }
{
    if net.special {
        return bytes.extend_from_slice(between(text, joints_end(net), net.end));
    }
    match net.usage {
        Some(usage) => put(bytes, &[b" + USE ", bytes_at(text, usage), b" ;"]),
        None => put(bytes, &[b" ;"]),
    }
}

/// Appends a statement with the joints that stay and the pins that come.
pub fn put_statement(
    bytes: &mut Vec<u8>,
    text: &[u8],
    net: &NetStatement,
    changes: &NetChanges<'_>,
) -> Result<(), AllocError>
    requires { AreInOrder changes.now.moves.items }
    ensures { OnOk result (bytes.new.items ≡ bytes.old.items ++ changed_text text.now (changes_in changes.now) net.now.special (net_in text.now net.now)) }
{
    let name = bytes_at(text, net.name);
    put(bytes, &[b"- ", name])?;
    put_joints(bytes, text, &net.joints, &changes.moves, name)?;
    put_added(bytes, changes, net.special, name)?;
    put_tail(bytes, text, net)
}

/// Appends the first statement of a net, and a line feed.
pub fn put_fresh(bytes: &mut Vec<u8>, name: &[u8], added: &Added<'_>) -> Result<(), AllocError>
    ensures { OnOk result (bytes.new.items ≡ bytes.old.items ++ fresh_text (record { name = name.now; joints = map moved_pin (moves_on added.now name.now) })) }
{
    put(bytes, &[b"- ", name])?;
    put_coming(bytes, added, name)?;
    put(bytes, &[b" ;\n"])
}
