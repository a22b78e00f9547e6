//! Writing the issued text.

ghost use Rattle.std.specs.Prelude.{◌≡◌, ◌≤◌, ℕ, List, length};
ghost use Rattle.eco_text.specs.Writing.{Writes};
ghost use Rattle.eco_def.specs.View.{design_in};
ghost use Rattle.eco_def.specs.Sections.{IsReadingOf};
ghost use Rattle.eco_issued_laws.specs.Changes.{NewJoint};
ghost use Rattle.eco_issued_laws.specs.Issued.{edited, issued_text, IsOverlayOf};
ghost use Rattle.eco_overlay.specs.Overlays.{IsMadeFor};

use crate::overlay::Overlay;
use eco_common::Failed;
use eco_def::Design;
use eco_text::Sink;

/// How many bytes the issued text has. The overlay was made for the text and its design.
pub fn emit_len(text: &[u8], _design: &Design, overlay: &Overlay) -> u64
    requires reading { IsReadingOf text.now _design.now }
    requires made { IsMadeFor text.now _design.now overlay.now }
    ensures edited { result ≡ length (edited text.now 0 overlay.now) }
    ensures issued { (joints : List NewJoint) (nets : List (List ℕ)) → IsOverlayOf text.now (design_in text.now _design.now) joints nets overlay.now → result ≡ length (issued_text text.now (design_in text.now _design.now) joints nets) }
{
    overlay.edited_len(text)
}

/// Appends the issued text to the sink, or a front of it where the sink fails. The overlay was made for the text and
/// its design.
pub fn emit<K: Sink>(
    text: &[u8],
    _design: &Design,
    overlay: &Overlay,
    sink: &mut K,
) -> Result<(), Failed>
    requires reading { IsReadingOf text.now _design.now }
    requires made { IsMadeFor text.now _design.now overlay.now }
    ensures edited { Writes K.taken K.faults sink.old sink.new result (edited text.now 0 overlay.now) }
    ensures issued { (joints : List NewJoint) (nets : List (List ℕ)) → IsOverlayOf text.now (design_in text.now _design.now) joints nets overlay.now → Writes K.taken K.faults sink.old sink.new result (issued_text text.now (design_in text.now _design.now) joints nets) }
{
    overlay.write_edited(text, sink)
}
