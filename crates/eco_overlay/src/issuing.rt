//! The edits of a text whose nets have other joints.

ghost use Rattle.std.specs.Prelude.{◌≡◌, ◌++◌, [], ◌∷◌, ℕ, List, map, OnOk, IfOk, true, false, if◌then◌else◌};
ghost use Rattle.std.specs.List.{filter, list_any};
ghost use Rattle.eco_def.specs.View.{net_in, design_in};
ghost use Rattle.eco_def.specs.Named.{names_of};
ghost use Rattle.eco_def.specs.Sections.{IsReadingOf};
ghost use Rattle.eco_issued_laws.specs.Changes.{changes_of};
ghost use Rattle.eco_issued_laws.specs.Issued.{IsOverlayOf, nets_first, stays_whole};
ghost use Rattle.eco_overlay.specs.PinMoves.{new_joint, AreInOrder, ArePinsApart, AreMarked};
ghost use Rattle.eco_overlay.specs.NetChanges.{changes_in, of_kind, is_before_first, AreCountable};
ghost use Rattle.eco_overlay.specs.Overlays.{changed_edits, all_changed, section_changed, design_changed};

use crate::coming::{add_first_stated, coming_pins, stated_nets, statement_gets_pins};
use crate::fresh::{add_count, add_fresh};
use crate::moves::{all_stay, put_in_order};
use crate::names::sort_names;
use crate::net_changes::NetChanges;
use crate::overlay::Overlay;
use crate::pin_move::PinMove;
use crate::standing::mark_standing;
use crate::statement::put_statement;
use eco_def::{Design, NetStatement};
use eco_text::bytes_at;
use std::alloc::{AllocError, Global};

/// The moves in order, and those marked whose pins stand on their nets.
fn ordered_moves<'a>(
    text: &[u8],
    nets: &[NetStatement],
    mut moves: Vec<PinMove<'a>>,
) -> Vec<PinMove<'a>>
    requires { ArePinsApart (map new_joint moves.items) }
    ensures { AreMarked text.now nets.now moves.entry.items result.items }
{
    put_in_order(&mut moves);
    mark_standing(text, nets, &mut moves);
    moves
}

/// What the moves change in the nets of a design. No move is marked yet.
fn changes_of_moves<'a>(
    alloc: Global,
    text: &'a [u8],
    design: &Design,
    moves: Vec<PinMove<'a>>,
    mut fresh: Vec<&'a [u8]>,
) -> Result<NetChanges<'a>, AllocError>
    requires apart { ArePinsApart (map new_joint moves.items) }
    requires unmarked { list_any (λ m. m.stands) moves.items ≡ false }
    ensures changes { IfOk result (λ c. changes_in c ≡ changes_of (names_of (design_in text.now design.now)) (map new_joint moves.entry.items) (map (λ n. n.now) fresh.entry.items)) }
    ensures order { IfOk result (λ c. AreInOrder c.moves.items) }
{
    let nets = design.nets.as_slice();
    let moves = ordered_moves(text, nets, moves);
    let added = coming_pins(alloc, &moves)?;
    let ordinary = stated_nets(alloc, text, nets, &added, false)?;
    add_first_stated(
        &mut fresh,
        alloc,
        text,
        nets,
        design.pins.as_slice(),
        &added,
    )?;
    sort_names(&mut fresh);
    Ok(NetChanges {
        moves,
        added,
        ordinary,
        fresh,
    })
}

/// Whether nothing changes in a statement.
fn stays_whole(text: &[u8], net: &NetStatement, changes: &NetChanges<'_>) -> bool
    requires { AreInOrder changes.now.moves.items }
    ensures { result ≡ stays_whole (changes_in changes.now) net.now.special (net_in text.now net.now) }
{
    let name = bytes_at(text, net.name);
    !statement_gets_pins(changes, net.special, name)
        && all_stay(text, &net.joints, &changes.moves, name)
}

/// Adds the edit of a statement of one section, where it changes.
fn add_statement(
    overlay: &mut Overlay,
    alloc: Global,
    text: &[u8],
    net: &NetStatement,
    changes: &NetChanges<'_>,
) -> Result<(), AllocError>
    requires { AreInOrder changes.now.moves.items }
    ensures { OnOk result (overlay.new ≡ overlay.old ++ changed_edits text.now (changes_in changes.now) net.now.special (net_in text.now net.now)) }
{
    if stays_whole(text, net, changes) {
        return Ok(());
    }
    let mut bytes = Vec::new(alloc);
    put_statement(&mut bytes, text, net, changes)?;
    overlay.add(net.start, net.end, &bytes)
}

/// Adds the edit of a statement that is of the section and changes.
fn add_of_section(
    overlay: &mut Overlay,
    alloc: Global,
    text: &[u8],
    net: &NetStatement,
    changes: &NetChanges<'_>,
    special: bool,
) -> Result<(), AllocError>
    requires { AreInOrder changes.now.moves.items }
    ensures { OnOk result (overlay.new ≡ overlay.old ++ all_changed text.now (changes_in changes.now) special (map (net_in text.now) (of_kind special (net.now ∷ [])))) }
{
    if net.special != special {
        return Ok(());
    }
    add_statement(overlay, alloc, text, net, changes)
}

/// Adds the edits of the statements of a section that change.
fn add_statements(
    overlay: &mut Overlay,
    alloc: Global,
    text: &[u8],
    nets: &[NetStatement],
    changes: &NetChanges<'_>,
    special: bool,
) -> Result<(), AllocError>
    requires { AreInOrder changes.now.moves.items }
    ensures { OnOk result (overlay.new ≡ overlay.old ++ all_changed text.now (changes_in changes.now) special (map (net_in text.now) (of_kind special nets.now))) }
{
    for net in nets {
        add_of_section(overlay, alloc, text, net, changes, special)?;
    }
    Ok(())
}

/// Adds the edits of NETS.
fn add_section(
    overlay: &mut Overlay,
    alloc: Global,
    text: &[u8],
    design: &Design,
    changes: &NetChanges<'_>,
) -> Result<(), AllocError>
    requires order { AreInOrder changes.now.moves.items }
    requires few { AreCountable design.now }
    ensures { OnOk result (overlay.new ≡ overlay.old ++ section_changed text.now (changes_in changes.now) (design_in text.now design.now).nets) }
{
    add_count(overlay, alloc, design, changes)?;
    add_statements(overlay, alloc, text, design.nets.as_slice(), changes, false)?;
    add_fresh(overlay, alloc, design, changes)
}

/// Whether a place stands before the first statement of SPECIALNETS.
fn is_before_special(nets: &[NetStatement], place: u32) -> bool
    ensures { (text : List ℕ) → result ≡ is_before_first place (map (net_in text) (of_kind true nets.now)) }
{
    for net in nets {
        if net.special {
            return place < net.start;
        }
    }
    false
}

/// Whether NETS stands before SPECIALNETS.
fn is_nets_first(design: &Design) -> bool
    ensures { (text : List ℕ) → result ≡ nets_first (design_in text design.now).special (design_in text design.now).nets }
{
    is_before_special(design.nets.as_slice(), design.net_count.start)
}

/// The edits of the statements that change, in the order of the text.
fn overlay_of_changes(
    alloc: Global,
    text: &[u8],
    design: &Design,
    changes: &NetChanges<'_>,
) -> Result<Overlay, AllocError>
    requires order { AreInOrder changes.now.moves.items }
    requires few { AreCountable design.now }
    ensures { IfOk result (λ o. o ≡ design_changed text.now (changes_in changes.now) (design_in text.now design.now)) }
{
    let nets = design.nets.as_slice();
    let mut overlay = Overlay::new(alloc);
    if is_nets_first(design) {
        add_section(&mut overlay, alloc, text, design, changes)?;
        add_statements(&mut overlay, alloc, text, nets, changes, true)?;
        return Ok(overlay);
    }
    add_statements(&mut overlay, alloc, text, nets, changes, true)?;
    add_section(&mut overlay, alloc, text, design, changes)?;
    Ok(overlay)
}

/// The overlay that puts pins on their nets, with these new nets. No move is marked yet.
pub fn overlay_of<'a>(
    alloc: Global,
    text: &'a [u8],
    design: &Design,
    moves: Vec<PinMove<'a>>,
    fresh: Vec<&'a [u8]>,
) -> Result<Overlay, AllocError>
    requires reading { IsReadingOf text.now design.now }
    requires apart { ArePinsApart (map new_joint moves.items) }
    requires unmarked { list_any (λ m. m.stands) moves.items ≡ false }
    ensures { IfOk result (IsOverlayOf text.now (design_in text.now design.now) (map new_joint moves.entry.items) (map (λ n. n.now) fresh.entry.items)) }
{
    let changes = changes_of_moves(alloc, text, design, moves, fresh)?;
    overlay_of_changes(alloc, text, design, &changes)
}
