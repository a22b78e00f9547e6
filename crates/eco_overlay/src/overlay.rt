//! What changes in a text.

ghost use Rattle.std.specs.Prelude.{◌≡◌, ◌≤◌, [], ◌∷◌, ◌++◌, length, OnOk};
ghost use Rattle.eco_text.specs.Writing.{Writes};
ghost use Rattle.eco_issued_laws.specs.Issued.{Edit, edited, InOrder};
ghost use Rattle.eco_overlay.specs.Overlays.{edits_of, Rises};

use crate::stretch::Stretch;
use eco_common::{Failed, MAX_DEF_BYTES};
use eco_text::{Sink, between, part, write_piece, write_pieces};
use std::alloc::{AllocError, Global};
use std::marker::Model;

/// Edits of a text, one after another: stretches of it, and the bytes that stand in their place.
#[derive(Debug, Drop)]
pub struct Overlay {
    bytes: Vec<u8>,
    stretches: Vec<Stretch>,
}

impl Model for Overlay {
    ghost use Rattle.std.specs.Prelude.{List, length};
    ghost use Rattle.eco_issued_laws.specs.Issued.{Edit};
    ghost use Rattle.eco_overlay.specs.Overlays.{edits_of, Rises};

    ghost Value = { List Edit };

    ghost view = { λ o. edits_of o.bytes.items 0 o.stretches.items };

    ghost invariant = { λ o. Rises 0 (length o.bytes.items) o.stretches.items };
}

fn write_both<K: Sink>(kept: &[u8], new: &[u8], sink: &mut K) -> Result<(), Failed>
    ensures { Writes K.taken K.faults sink.old sink.new result (kept.now ++ new.now) }
{
    write_pieces(sink, &[kept, new])
}

/// Writes the text with each stretch replaced by the bytes from where the one before ends.
fn write_stretches<K: Sink>(
    text: &[u8],
    bytes: &[u8],
    stretches: &[Stretch],
    sink: &mut K,
) -> Result<(), Failed>
    requires short { length text.now ≤ MAX_DEF_BYTES }
    requires rises { Rises 0 (length bytes.now) stretches.now }
    ensures { Writes K.taken K.faults sink.old sink.new result (edited text.now 0 (edits_of bytes.now 0 stretches.now)) }
{
    let mut at = 0;
    let mut from = 0;
    for stretch in stretches {
        let kept = between(text, at, stretch.start);
        let new = part(bytes, from, stretch.upto);
        write_both(kept, new, sink)?;
        at = stretch.end;
        from = stretch.upto;
    }
    write_piece(between(text, at, text.len() as u32), sink)
}

/// How many bytes that text has.
fn stretched_len(text: &[u8], bytes: &[u8], stretches: &[Stretch]) -> u64
    requires short { length text.now ≤ MAX_DEF_BYTES }
    requires rises { Rises 0 (length bytes.now) stretches.now }
    requires order { InOrder 0 (length text.now) (edits_of bytes.now 0 stretches.now) }
    ensures { result ≡ length (edited text.now 0 (edits_of bytes.now 0 stretches.now)) }
{
    let mut replaced: u64 = 0;
    for stretch in stretches {
        replaced += u64::from(stretch.end - stretch.start);
    }
    text.len() as u64 + bytes.len() as u64 - replaced
}

impl Overlay {
    /// An overlay without edits.
    pub(crate) fn new(alloc: Global) -> Overlay
        ensures { result ≡ [] }
    {
        Overlay {
            bytes: Vec::new(alloc),
            stretches: Vec::new(alloc),
        }
    }

    /// Adds one edit after the others.
    pub(crate) fn add(&mut self, start: u32, end: u32, bytes: &[u8]) -> Result<(), AllocError>
        ensures { OnOk result (self.new ≡ self.old ++ record { start = start; end = end; bytes = bytes.now } ∷ []) }
    {
        self.stretches.reserve(1)?;
        self.bytes.extend_from_slice(bytes)?;
        let upto = self.bytes.len();
        let _ = self.stretches.push(Stretch { start, end, upto });
        Ok(())
    }

    /// Writes the edited text.
    pub(crate) fn write_edited<K: Sink>(&self, text: &[u8], sink: &mut K) -> Result<(), Failed>
        requires { length text.now ≤ MAX_DEF_BYTES }
        ensures { Writes K.taken K.faults sink.old sink.new result (edited text.now 0 self.now) }
    {
        write_stretches(text, &self.bytes, &self.stretches, sink)
    }

    /// How many bytes the edited text has, where the edits lie in the text, one after another.
    pub(crate) fn edited_len(&self, text: &[u8]) -> u64
        requires short { length text.now ≤ MAX_DEF_BYTES }
        requires order { InOrder 0 (length text.now) self.now }
        ensures { result ≡ length (edited text.now 0 self.now) }
    {
        stretched_len(text, &self.bytes, &self.stretches)
    }
}
