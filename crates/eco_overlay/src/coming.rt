//! Pins that come to nets.

ghost use Rattle.std.specs.Prelude.{◌≡◌, ℕ, List, map, false, true, not, ◌||◌, ◌&&◌, IfOk, OnOk, [], ◌∷◌, ◌++◌, if◌then◌else◌};
ghost use Rattle.std.specs.Str.{bytes_eq};
ghost use Rattle.std.specs.List.{list_any};
ghost use Rattle.eco_common.specs.KnownNames.{knows};
ghost use Rattle.eco_issued_laws.specs.Changes.{is_nil};
ghost use Rattle.eco_text.specs.Cursor.{word_bytes};
ghost use Rattle.eco_overlay.specs.NetChanges.{coming, moves_on, pins_for, is_statement_of, nets_first_stated};

use crate::net_changes::{Added, NetChanges};
use crate::pin_move::PinMove;
use eco_common::{Names, add_name, has_name};
use eco_def::{NetStatement, TopPin};
use eco_text::bytes_at;
use std::alloc::{AllocError, Global};
use std::collections::{BTreeMap, HashMap};

/// Takes the pins of a net away.
fn take_pins<'a>(added: &mut Added<'a>, alloc: Global, net: &'a [u8]) -> Vec<PinMove<'a>>
    ensures pins { result.items ≡ moves_on added.old net.now }
    ensures others { (q : List ℕ) → bytes_eq net.now q ≡ false → moves_on added.new q ≡ moves_on added.old q }
{
    match added.remove(net) {
        Some(pins) => pins,
        None => Vec::new(alloc),
    }
}

/// Adds a pin to those of its net.
fn add_pin<'a>(added: &mut Added<'a>, alloc: Global, moved: PinMove<'a>) -> Result<(), AllocError>
    ensures { OnOk result ((net : List ℕ) → moves_on added.new net ≡ moves_on added.old net ++ (if bytes_eq net moved.entry.net.now then moved.entry ∷ [] else [])) }
{
    let mut pins = take_pins(added, alloc, moved.net);
    pins.push(moved)?;
    added.insert(moved.net, pins)?;
    Ok(())
}

/// Adds a pin to those that come to its net, where it doesn't stand there.
fn add_coming<'a>(
    added: &mut Added<'a>,
    alloc: Global,
    moved: PinMove<'a>,
) -> Result<(), AllocError>
    ensures { OnOk result ((net : List ℕ) → moves_on added.new net ≡ moves_on added.old net ++ coming (moved.entry ∷ []) net) }
{
    if moved.stands {
        return Ok(());
    }
    add_pin(added, alloc, moved)
}

/// The pins that come to each net.
pub fn coming_pins<'a>(alloc: Global, moves: &[PinMove<'a>]) -> Result<Added<'a>, AllocError>
    ensures { IfOk result (λ added. (net : List ℕ) → moves_on added net ≡ coming moves.now net) }
{
    let mut added: Added<'a> = BTreeMap::new(alloc);
    for moved in moves {
        add_coming(&mut added, alloc, *moved)?;
    }
    Ok(added)
}

/// Whether a pin comes to a net.
fn gets_pins(added: &Added<'_>, net: &[u8]) -> bool
    ensures { result ≡ not (is_nil (moves_on added.now net.now)) }
{
    match added.get(net) {
        Some(pins) => !pins.is_empty(),
        None => false,
    }
}

/// Whether the statement is in NETS, or in either section, and its net gets a pin.
fn gets_pin(text: &[u8], net: &NetStatement, added: &Added<'_>, either: bool) -> bool
    ensures { result ≡ ((either || not net.now.special) && not (is_nil (moves_on added.now (word_bytes text.now net.now.name)))) }
{
    (either || !net.special) && gets_pins(added, bytes_at(text, net.name))
}

/// Adds the name of a statement in NETS, or in either section, where its net gets a pin.
fn add_stated<'a>(
    names: &mut Names<'a>,
    text: &'a [u8],
    net: &NetStatement,
    added: &Added<'_>,
    either: bool,
) -> Result<(), AllocError>
    ensures { OnOk result ((q : List ℕ) → is_nil (moves_on added.now q) ≡ false → knows names.new q ≡ (knows names.old q || is_statement_of text.now either q net.now)) }
{
    if !gets_pin(text, net, added, either) {
        return Ok(());
    }
    add_name(names, bytes_at(text, net.name))?;
    Ok(())
}

/// The nets that get a pin and have a statement in NETS, or in either section.
pub fn stated_nets<'a>(
    alloc: Global,
    text: &'a [u8],
    nets: &[NetStatement],
    added: &Added<'_>,
    either: bool,
) -> Result<Names<'a>, AllocError>
    ensures { IfOk result (λ names. (net : List ℕ) → is_nil (moves_on added.now net) ≡ false → knows names net ≡ list_any (is_statement_of text.now either net) nets.now) }
{
    let mut names = HashMap::new(alloc);
    for net in nets {
        add_stated(&mut names, text, net, added, either)?;
    }
    Ok(names)
}

/// Whether a net gets a pin and isn't among the names, to which it is added.
fn is_first<'a>(names: &mut Names<'a>, added: &Added<'_>, net: &'a [u8]) -> Result<bool, AllocError>
    ensures first { IfOk result (λ b. b ≡ (not (is_nil (moves_on added.now net.now)) && not (knows names.old net.now))) }
    ensures names { OnOk result ((q : List ℕ) → knows names.new q ≡ (if (not (is_nil (moves_on added.now net.now)) && bytes_eq net.now q) then true else knows names.old q)) }
{
    if !gets_pins(added, net) {
        return Ok(false);
    }
    add_name(names, net)
}

/// Adds the nets that only top pins name and that get a pin, each once.
pub fn add_first_stated<'a>(
    fresh: &mut Vec<&'a [u8]>,
    alloc: Global,
    text: &'a [u8],
    nets: &[NetStatement],
    pins: &[TopPin],
    added: &Added<'_>,
) -> Result<(), AllocError>
    ensures { OnOk result (map (λ n. n.now) fresh.new.items ≡ map (λ n. n.now) fresh.old.items ++ nets_first_stated text.now added.now nets.now pins.now) }
{
    let mut stated = stated_nets(alloc, text, nets, added, true)?;
    for pin in pins {
        let net = bytes_at(text, pin.net);
        if is_first(&mut stated, added, net)? {
            fresh.push(net)?;
        }
    }
    Ok(())
}

/// Whether the pins that come to a net go to its statement in NETS, and not to this one.
pub fn goes_to_ordinary(changes: &NetChanges<'_>, special: bool, net: &[u8]) -> bool
    ensures { result ≡ (special && knows changes.now.ordinary net.now) }
{
    special && has_name(&changes.ordinary, net)
}

/// Whether a pin comes to a net's statement.
pub fn statement_gets_pins(changes: &NetChanges<'_>, special: bool, net: &[u8]) -> bool
    ensures { result ≡ not (is_nil (pins_for changes.now special net.now)) }
{
    !goes_to_ordinary(changes, special, net) && gets_pins(&changes.added, net)
}
