//! The overlay of lists of joints and nets.

ghost use Rattle.std.specs.Prelude.{◌≡◌, map, false, IfOk};
ghost use Rattle.std.specs.List.{list_any};
ghost use Rattle.eco_def.specs.View.{design_in};
ghost use Rattle.eco_def.specs.Sections.{IsReadingOf};
ghost use Rattle.eco_issued_laws.specs.Issued.{IsOverlayOf};
ghost use Rattle.eco_overlay.specs.PinMoves.{new_joint, joint_by_names, ArePinsApart};
ghost use Rattle.eco_overlay.specs.Overlays.{IsMadeFor};

use crate::issuing::overlay_of;
use crate::new_joint::NewJoint;
use crate::overlay::Overlay;
use crate::pin_move::PinMove;
use eco_common::{Memory, Name};
use eco_def::Design;
use std::alloc::{AllocError, Global};

/// The joint as a move that isn't marked.
fn move_of(joint: &NewJoint) -> PinMove<'_>
    ensures named { new_joint result ≡ joint_by_names joint.now }
    ensures unmarked { result.stands ≡ false }
{
    PinMove {
        comp: joint.comp.bytes(),
        pin: joint.pin.bytes(),
        net: joint.net.bytes(),
        stands: false,
    }
}

/// The joints as moves, none of them marked.
fn moves_of(alloc: Global, joints: &[NewJoint]) -> Result<Vec<PinMove<'_>>, AllocError>
    ensures moves { IfOk result (λ moves. map new_joint moves.items ≡ map joint_by_names joints.now) }
    ensures unmarked { IfOk result (λ moves. list_any (λ m. m.stands) moves.items ≡ false) }
{
    let mut moves = Vec::new(alloc);
    for joint in joints {
        moves.push(move_of(joint))?;
    }
    Ok(moves)
}

/// The names' bytes.
fn bytes_of(alloc: Global, names: &[Name]) -> Result<Vec<&[u8]>, AllocError>
    ensures { IfOk result (λ bytes. map (λ n. n.now) bytes.items ≡ names.now) }
{
    let mut bytes = Vec::new(alloc);
    for name in names {
        bytes.push(name.bytes())?;
    }
    Ok(bytes)
}

impl Overlay {
    /// The overlay that puts pins on nets, and adds new nets.
    ///
    /// The design is the reading of the text, and no two joints name the same pin. A joint whose net is neither in the
    /// design nor among the new nets is taken off its net and put on none.
    pub fn of(
        alloc: Global,
        text: &[u8],
        design: &Design,
        joints: &[NewJoint],
        nets: &[Name],
    ) -> Result<Overlay, Memory>
        requires reading { IsReadingOf text.now design.now }
        requires apart { ArePinsApart (map joint_by_names joints.now) }
        ensures issued { IfOk result (IsOverlayOf text.now (design_in text.now design.now) (map joint_by_names joints.now) nets.now) }
        ensures made { IfOk result (IsMadeFor text.now design.now) }
    {
        let moves = moves_of(alloc, joints)?;
        let fresh = bytes_of(alloc, nets)?;
        Ok(overlay_of(alloc, text, design, moves, fresh)?)
    }
}
