//! The net at the first place of each pin.

ghost use Rattle.std.specs.Prelude.{◌≡◌, [], ◌∷◌, map, IfOk, OnOk, ℕ, List};
ghost use Rattle.std.specs.List.{filter};
ghost use Rattle.eco_pin_faults.specs.Faults.{first_net};
ghost use Rattle.eco_pin_faults.specs.Held.{place_by, takes, net_by, AddsPlaces};
ghost use Rattle.eco_pin_faults.specs.Places.{joint_place, joints_among, top_place, places};

use crate::placed_pin::{PlacedPin, joint_at, top_at};
use crate::side::{Side, pins_start, stands_there};
use eco_def::{Design, Joints, NetStatement, TopPin};
use std::alloc::{AllocError, Global};
use std::collections::HashMap;

/// The net at the first place of each pin, by component and pin.
pub type FirstNets<'a> = HashMap<(&'a [u8], &'a [u8]), &'a [u8]>;

/// Adds the net of a place, unless its pin has one.
fn add_place<'a>(nets: &mut FirstNets<'a>, place: &PlacedPin<'a>) -> Result<(), AllocError>
    ensures { OnOk result (AddsPlaces nets.old nets.new (place_by place.now ∷ [])) }
{
    let key = (place.comp, place.pin);
    if !nets.contains_key(&key) {
        nets.insert(key, place.net)?;
    }
    Ok(())
}

fn add_joints<'a>(
    nets: &mut FirstNets<'a>,
    text: &'a [u8],
    net: &NetStatement,
    joints: &Joints,
) -> Result<(), AllocError>
    ensures { OnOk result (AddsPlaces nets.old nets.new (map (joint_place text.now net.now) joints.now)) }
{
    for joint in joints.iter() {
        let place = joint_at(text, net, &joint);
        add_place(nets, &place)?;
    }
    Ok(())
}

fn add_statement<'a>(
    nets: &mut FirstNets<'a>,
    text: &'a [u8],
    net: &NetStatement,
    side: Side,
) -> Result<(), AllocError>
    ensures { OnOk result (AddsPlaces nets.old nets.new (joints_among text.now (filter (takes side) (net.now ∷ [])))) }
{
    if stands_there(side, net) {
        add_joints(nets, text, net, &net.joints)
    } else {
        Ok(())
    }
}

/// Adds the joints of the statements that stand there.
fn add_side<'a>(
    nets: &mut FirstNets<'a>,
    text: &'a [u8],
    statements: &[NetStatement],
    side: Side,
) -> Result<(), AllocError>
    ensures { OnOk result (AddsPlaces nets.old nets.new (joints_among text.now (filter (takes side) statements.now))) }
{
    for net in statements {
        add_statement(nets, text, net, side)?;
    }
    Ok(())
}

fn add_tops<'a>(nets: &mut FirstNets<'a>, text: &'a [u8], pins: &[TopPin]) -> Result<(), AllocError>
    ensures { OnOk result (AddsPlaces nets.old nets.new (map (top_place text.now) pins.now)) }
{
    for pin in pins {
        let place = top_at(text, pin);
        add_place(nets, &place)?;
    }
    Ok(())
}

/// The net at the first place of each pin of a design.
pub fn first_nets<'a>(
    alloc: Global,
    text: &'a [u8],
    design: &Design,
) -> Result<FirstNets<'a>, AllocError>
    ensures { IfOk result (λ nets. (comp pin : List ℕ) → net_by nets comp pin ≡ first_net (places text.now design.now) comp pin) }
{
    let pins = design.pins.as_slice();
    let statements = design.nets.as_slice();
    let start = pins_start(pins);
    let mut nets = HashMap::new(alloc);
    add_side(&mut nets, text, statements, Side::Before(start))?;
    add_tops(&mut nets, text, pins)?;
    add_side(&mut nets, text, statements, Side::Behind(start))?;
    Ok(nets)
}
