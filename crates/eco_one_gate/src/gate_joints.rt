//! The pins that a gate's spare puts on nets.

ghost use Rattle.std.specs.Prelude.{◌≡◌, ◌++◌, ◌∷◌, [], map, IfOk, OnOk, option_copied};
ghost use Rattle.std.specs.List.{zip};
ghost use Rattle.eco_patch_laws.specs.Realisation.{feed_net as net_of_feed, feed_joints};
ghost use Rattle.eco_one_gate.specs.OneGates.{gate_of};
ghost use Rattle.eco_one_gate.specs.OneSteps.{lone_joints};
ghost use Rattle.eco_overlay.specs.PinMoves.{joint_by_names};

use crate::one_gate::OneGate;
use eco_common::{Memory, Name};
use eco_embed::Feed;
use eco_overlay::NewJoint;
use std::alloc::Global;

/// The net of a feed: a tie net, or that of one of the gate's inputs.
fn feed_net<'a>(low: &'a Name, high: &'a Name, inputs: &'a [Name], feed: Feed) -> Option<&'a Name>
    ensures { option_copied result ≡ net_of_feed low.entry.now high.entry.now inputs.entry.now feed }
{
    match feed {
        Feed::Zero => Some(low),
        Feed::One => Some(high),
        Feed::Input(place) => inputs.get(place as usize),
    }
}

/// A pin of a component on a net.
fn joint(alloc: Global, comp: &Name, pin: &Name, net: &Name) -> Result<NewJoint, Memory>
    ensures { IfOk result (λ j. j ≡ record { comp = comp.now; pin = pin.now; net = net.now }) }
{
    Ok(NewJoint {
        comp: comp.copy(alloc)?,
        pin: pin.copy(alloc)?,
        net: net.copy(alloc)?,
    })
}

/// Adds a pin of the spare, on the net of its feed.
fn add_fed(
    alloc: Global,
    low: &Name,
    high: &Name,
    one: &OneGate,
    pin: &Name,
    feed: Feed,
    joints: &mut Vec<NewJoint>,
) -> Result<(), Memory>
    ensures { OnOk result (map joint_by_names joints.new.items ≡ map joint_by_names joints.old.items ++ feed_joints low.now high.now (gate_of one.now) one.now.spare ((pin.now, feed) ∷ [])) }
{
    if let Some(net) = feed_net(low, high, &one.inputs, feed) {
        joints.push(joint(alloc, &one.spare, pin, net)?)?;
    }
    Ok(())
}

/// Adds the input pins of the spare, each on the net of its feed.
fn add_all_fed(
    alloc: Global,
    low: &Name,
    high: &Name,
    one: &OneGate,
    pins: &[Name],
    joints: &mut Vec<NewJoint>,
) -> Result<(), Memory>
    ensures { OnOk result (map joint_by_names joints.new.items ≡ map joint_by_names joints.old.items ++ feed_joints low.now high.now (gate_of one.now) one.now.spare (zip pins.now one.now.feeds.items)) }
{
    for (pin, feed) in pins.iter().zip(one.feeds.iter()) {
        add_fed(alloc, low, high, one, pin, *feed, joints)?;
    }
    Ok(())
}

/// The moved pin and the spare's output on the gate's output, and the spare's inputs on the nets of their feeds.
pub(crate) fn gate_joints(
    alloc: Global,
    low: &Name,
    high: &Name,
    one: &OneGate,
    inputs: &[Name],
    output: &Name,
) -> Result<Vec<NewJoint>, Memory>
    ensures { IfOk result (λ joints. map joint_by_names joints.items ≡ lone_joints low.now high.now one.now inputs.now output.now) }
{
    let mut joints = Vec::new(alloc);
    joints.push(joint(alloc, &one.comp, &one.pin, &one.output)?)?;
    joints.push(joint(alloc, &one.spare, output, &one.output)?)?;
    add_all_fed(alloc, low, high, one, inputs, &mut joints)?;
    Ok(joints)
}
