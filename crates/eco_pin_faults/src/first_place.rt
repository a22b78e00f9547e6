//! The first place of a pin that passes a test.

ghost use Rattle.std.specs.Prelude.{◌≡◌, [], ◌∷◌, map, IfOk};
ghost use Rattle.std.specs.List.{filter, find};
ghost use Rattle.std.specs.Option.{option_map};
ghost use Rattle.eco_pin_faults.specs.Held.{place_by, takes};
ghost use Rattle.eco_pin_faults.specs.Places.{joint_place, joints_among, top_place, joints, places};

use crate::place_test::PlaceTest;
use crate::placed_pin::{PlacedPin, joint_at, top_at};
use crate::side::{Side, pins_start, stands_there};
use eco_common::Memory;
use eco_def::{Design, Joints, NetStatement, TopPin};

/// The first of a statement's joints that passes.
fn first_of_joints<'a, T: PlaceTest>(
    test: &T,
    text: &'a [u8],
    net: &NetStatement,
    joints: &Joints,
) -> Result<Option<PlacedPin<'a>>, Memory>
    ensures { IfOk result (λ o. option_map place_by o ≡ find (T.passes test.now) (map (joint_place text.now net.now) joints.now)) }
{
    for joint in joints.iter() {
        let place = joint_at(text, net, &joint);
        let passes = test.test(&place)?;
        if passes {
            return Ok(Some(place));
        }
    }
    Ok(None)
}

/// The first joint of a statement that passes, if the statement stands there.
fn first_of_statement<'a, T: PlaceTest>(
    test: &T,
    text: &'a [u8],
    net: &NetStatement,
    side: Side,
) -> Result<Option<PlacedPin<'a>>, Memory>
    ensures { IfOk result (λ o. option_map place_by o ≡ find (T.passes test.now) (joints_among text.now (filter (takes side) (net.now ∷ [])))) }
{
    if stands_there(side, net) {
        first_of_joints(test, text, net, &net.joints)
    } else {
        Ok(None)
    }
}

/// The first joint that passes, of the statements that stand there.
fn first_of_side<'a, T: PlaceTest>(
    test: &T,
    text: &'a [u8],
    nets: &[NetStatement],
    side: Side,
) -> Result<Option<PlacedPin<'a>>, Memory>
    ensures { IfOk result (λ o. option_map place_by o ≡ find (T.passes test.now) (joints_among text.now (filter (takes side) nets.now))) }
{
    for net in nets {
        let first = first_of_statement(test, text, net, side)?;
        if first.is_some() {
            return Ok(first);
        }
    }
    Ok(None)
}

/// The first top pin that passes, with its net.
fn first_of_tops<'a, T: PlaceTest>(
    test: &T,
    text: &'a [u8],
    pins: &[TopPin],
) -> Result<Option<PlacedPin<'a>>, Memory>
    ensures { IfOk result (λ o. option_map place_by o ≡ find (T.passes test.now) (map (top_place text.now) pins.now)) }
{
    for pin in pins {
        let place = top_at(text, pin);
        let passes = test.test(&place)?;
        if passes {
            return Ok(Some(place));
        }
    }
    Ok(None)
}

/// The first joint of a design that passes.
pub fn first_joint<'a, T: PlaceTest>(
    test: &T,
    text: &'a [u8],
    design: &Design,
) -> Result<Option<PlacedPin<'a>>, Memory>
    ensures { IfOk result (λ o. option_map place_by o ≡ find (T.passes test.now) (joints text.now design.now)) }
{
    first_of_side(test, text, design.nets.as_slice(), Side::Both)
}

/// The first place of a design's pins that passes.
pub fn first_place<'a, T: PlaceTest>(
    test: &T,
    text: &'a [u8],
    design: &Design,
) -> Result<Option<PlacedPin<'a>>, Memory>
    ensures { IfOk result (λ o. option_map place_by o ≡ find (T.passes test.now) (places text.now design.now)) }
{
    let pins = design.pins.as_slice();
    let nets = design.nets.as_slice();
    let start = pins_start(pins);
    let before = first_of_side(test, text, nets, Side::Before(start))?;
    if before.is_some() {
        return Ok(before);
    }
    let top = first_of_tops(test, text, pins)?;
    if top.is_some() {
        return Ok(top);
    }
    first_of_side(test, text, nets, Side::Behind(start))
}
