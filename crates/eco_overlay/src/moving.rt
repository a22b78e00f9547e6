//! Moving one pin to another net.

ghost use Rattle.std.specs.Prelude.{◌≡◌, [], ◌∷◌, ◌&&◌, ◌||◌, not, false, IfOk};
ghost use Rattle.std.specs.Str.{bytes_eq};
ghost use Rattle.std.specs.List.{list_any};
ghost use Rattle.eco_def.specs.View.{design_in};
ghost use Rattle.eco_def.specs.Sections.{IsReadingOf};
ghost use Rattle.eco_issued_laws.specs.Changes.{is_no_component as no_component, is_joint_of as of_pin};
ghost use Rattle.eco_issued_laws.specs.Issued.{IsOverlayOf};
ghost use Rattle.eco_overlay.specs.Overlays.{IsMadeFor};
ghost use Rattle.eco_overlay.specs.Moving.{Moves};
ghost use Rattle.eco_text.specs.Cursor.{word_bytes};
ghost use Rattle.eco_overlay.specs.PinMoves.{new_joint, names_in, stands_in, names_net, tops_net, names_comp};

use crate::fault::MoveFault;
use crate::issuing::overlay_of;
use crate::overlay::Overlay;
use crate::pin_move::PinMove;
use eco_def::{Comp, Design, Joint, Joints, NetStatement, TopPin};
use eco_issued_laws::is_no_component;
use eco_text::bytes_at;
use std::alloc::{AllocError, Global};

fn is_of(text: &[u8], joint: Joint, pin: &PinMove<'_>) -> bool
    ensures { result ≡ of_pin (new_joint pin.now) (names_in text.now joint) }
{
    let comp = bytes_at(text, joint.comp);
    !is_no_component(comp) && (pin.comp == comp && pin.pin == bytes_at(text, joint.pin))
}

fn has_joint(text: &[u8], joints: &Joints, pin: &PinMove<'_>) -> bool
    ensures { result ≡ list_any (λ j. of_pin (new_joint pin.now) (names_in text.now j)) joints.now }
{
    joints.iter().any(|joint| is_of(text, joint, pin))
}

fn is_statement_with(text: &[u8], net: &NetStatement, pin: &PinMove<'_>) -> bool
    ensures { result ≡ (bytes_eq (word_bytes text.now net.now.name) pin.now.net.now && list_any (λ j. of_pin (new_joint pin.now) (names_in text.now j)) net.now.joints) }
{
    bytes_at(text, net.name) == pin.net && has_joint(text, &net.joints, pin)
}

/// Whether some statement of the pin's net has its joint.
fn stands(text: &[u8], nets: &[NetStatement], pin: &PinMove<'_>) -> bool
    ensures { result ≡ stands_in text.now (new_joint pin.now) nets.now }
{
    nets.iter().any(|net| is_statement_with(text, net, pin))
}

fn has_statement(text: &[u8], nets: &[NetStatement], name: &[u8]) -> bool
    ensures { result ≡ names_net text.now name.now nets.now }
{
    nets.iter().any(|net| bytes_at(text, net.name) == name)
}

fn has_top_pin(text: &[u8], pins: &[TopPin], name: &[u8]) -> bool
    ensures { result ≡ tops_net text.now name.now pins.now }
{
    pins.iter().any(|pin| bytes_at(text, pin.net) == name)
}

fn knows_net(text: &[u8], design: &Design, name: &[u8]) -> bool
    ensures { result ≡ (names_net text.now name.now design.now.nets || tops_net text.now name.now design.now.pins) }
{
    has_statement(text, design.nets.as_slice(), name)
        || has_top_pin(text, design.pins.as_slice(), name)
}

fn has_comp_of_name(text: &[u8], comps: &[Comp], name: &[u8]) -> bool
    ensures { result ≡ names_comp text.now name.now comps.now }
{
    comps.iter().any(|comp| bytes_at(text, comp.name) == name)
}

fn knows_comp(text: &[u8], comps: &[Comp], name: &[u8]) -> bool
    ensures { result ≡ (not (no_component name.now) && names_comp text.now name.now comps.now) }
{
    !is_no_component(name) && has_comp_of_name(text, comps, name)
}

/// The overlay that puts one pin on its net.
fn overlay_of_one(
    alloc: Global,
    text: &[u8],
    design: &Design,
    pin: PinMove<'_>,
) -> Result<Overlay, AllocError>
    requires reading { IsReadingOf text.now design.now }
    requires unmarked { pin.stands ≡ false }
    ensures { IfOk result (IsOverlayOf text.now (design_in text.now design.now) (new_joint pin.entry ∷ []) []) }
{
    let mut moves = Vec::new(alloc);
    moves.push(pin)?;
    overlay_of(alloc, text, design, moves, Vec::new(alloc))
}

/// The overlay that puts one pin of a component from one net on another. Logic isn't looked at.
///
/// The design is the reading of the text. `UnknownComponent`, `NotOnNet` (no statement of `from` has that joint) and
/// `UnknownNet` (`to` isn't in the design) come in this order.
pub fn move_joint(
    alloc: Global,
    text: &[u8],
    design: &Design,
    comp: &[u8],
    pin: &[u8],
    from: &[u8],
    to: &[u8],
) -> Result<Overlay, MoveFault>
    requires { IsReadingOf text.now design.now }
    ensures moves { Moves text.now (design_in text.now design.now) comp.now pin.now from.now to.now result }
    ensures made { IfOk result (IsMadeFor text.now design.now) }
{
    if !knows_comp(text, design.comps.as_slice(), comp) {
        return Err(MoveFault::UnknownComponent);
    }
    let old = PinMove {
        comp,
        pin,
        net: from,
        stands: false,
    };
    if !stands(text, design.nets.as_slice(), &old) {
        return Err(MoveFault::NotOnNet);
    }
    if !knows_net(text, design, to) {
        return Err(MoveFault::UnknownNet);
    }
    let new = PinMove {
        comp,
        pin,
        net: to,
        stands: false,
    };
    Ok(overlay_of_one(alloc, text, design, new)?)
}
