//! Finding the pins that joints name.
//!
//! Components are looked up many at a time, since look-ups one after another wait for memory at the same time.

ghost use Rattle.std.specs.Prelude.{◌≡◌, ◌<◌, ◌⊎◌, ◌++◌, false, [], ◌∷◌, map, length, slice_get, ℕ, List, OnOk, IfOk, IfErr};
ghost use Rattle.std.specs.List.{Contains, AllZip};
ghost use Rattle.eco_def.specs.Named.{NamedNet};
ghost use Rattle.eco_common.specs.Joints.{NewJoint};
ghost use Rattle.eco_net.specs.declared.rows.NetRow.{NetRow};
ghost use Rattle.eco_net.specs.Netlist.{IsNet};
ghost use Rattle.eco_net.specs.Listing.{netlist, net_names, net_name, comp_names, FindsComp};
ghost use Rattle.eco_elaborate.specs.declared.fault.DesignFault.TheVariants.{UnknownPin as Unknown};
ghost use Rattle.eco_elaborate.specs.declared.stated_joint.StatedJoint.{StatedJoint as Stated};
ghost use Rattle.eco_text.specs.Cursor.{word_bytes};
ghost use Rattle.eco_elaborate.specs.Stated.{named_comps, named_joint, named_net, named_nets, pins_among, stated_pins, all_pins_on};
ghost use Rattle.eco_elaborate.specs.Stages.{has_supply_pin, stated_joint, stated_joints, FindsPinOf, FindsJoint, IsUnknownJoint, FindsPins, FindsOrWaits, PinFault};

use crate::fault::DesignFault;
use crate::joined_pin::JoinedPin;
use crate::macros::Macros;
use crate::stated_joint::StatedJoint;
use eco_common::Memory;
use eco_def::{Comp, Joint, Joints, NetStatement};
use eco_issued_laws::is_no_component;
use eco_net::{CompId, FoundComp, NetId, NetlistMaker};
use eco_text::bytes_at;
use std::alloc::Global;

/// So many joints wait for their components to be looked up together.
const MANY: usize = 512;

/// What joints are looked up in: what is listed, the text with its components, and what the macros are.
#[derive(Drop)]
struct PinLookup<'a, M> {
    maker: &'a NetlistMaker,
    text: &'a [u8],
    comps: &'a [Comp],
    macros: &'a M,
}

/// The pin of a name of the component of a name, which was looked up.
fn find_pin(
    maker: &NetlistMaker,
    text: &[u8],
    joint: &StatedJoint,
    comp: Option<FoundComp>,
) -> Option<(CompId, u32)>
    requires { FindsComp maker.now (word_bytes text.now joint.now.comp) comp }
    ensures { FindsPinOf maker.now (word_bytes text.now joint.now.comp) (word_bytes text.now joint.now.pin) result }
{
    maker.facts();
    match comp {
        None => None,
        Some(comp) => match maker.find_pin_of(comp, bytes_at(text, joint.pin)) {
            None => None,
            Some(pin) => Some((comp.id, pin)),
        },
    }
}

/// Whether the macro of a joint's component, which was looked up, has the joint's pin as a supply pin.
fn is_supply_pin<M: Macros>(
    lookup: &PinLookup<'_, M>,
    joint: &StatedJoint,
    comp: Option<FoundComp>,
) -> bool
    requires numbers { comp_names lookup.now.maker.now ≡ map (λ c. c.name) (named_comps lookup.now.text.now lookup.now.comps.now) }
    requires comp { FindsComp lookup.now.maker.now (word_bytes lookup.now.text.now joint.now.comp) comp }
    ensures { result ≡ has_supply_pin (M.powers lookup.now.macros.now) (named_comps lookup.now.text.now lookup.now.comps.now) (word_bytes lookup.now.text.now joint.now.comp) (word_bytes lookup.now.text.now joint.now.pin) }
{
    lookup.maker.facts();
    match comp {
        None => false,
        Some(comp) => {
            let model = bytes_at(lookup.text, lookup.comps[comp.id.0 as usize].model);
            lookup
                .macros
                .is_supply(model, bytes_at(lookup.text, joint.pin))
        }
    }
}

/// The pin that a joint names, or none for a supply pin.
fn find_joint<M: Macros>(
    lookup: &PinLookup<'_, M>,
    joint: &StatedJoint,
    comp: Option<FoundComp>,
) -> Result<Option<(CompId, u32)>, DesignFault>
    requires numbers { comp_names lookup.now.maker.now ≡ map (λ c. c.name) (named_comps lookup.now.text.now lookup.now.comps.now) }
    requires comp { FindsComp lookup.now.maker.now (word_bytes lookup.now.text.now joint.now.comp) comp }
    ensures ok { IfOk result (FindsJoint (has_supply_pin (M.powers lookup.now.macros.now) (named_comps lookup.now.text.now lookup.now.comps.now)) lookup.now.maker.now (word_bytes lookup.now.text.now joint.now.comp) (word_bytes lookup.now.text.now joint.now.pin)) }
    ensures err { IfErr result (λ e. (e ≡ Unknown) × IsUnknownJoint (has_supply_pin (M.powers lookup.now.macros.now) (named_comps lookup.now.text.now lookup.now.comps.now)) (netlist lookup.now.maker.now) (word_bytes lookup.now.text.now joint.now.comp) (word_bytes lookup.now.text.now joint.now.pin)) }
{
    let found = find_pin(lookup.maker, lookup.text, joint, comp);
    if found.is_some() || is_supply_pin(lookup, joint, comp) {
        Ok(found)
    } else {
        Err(DesignFault::UnknownPin)
    }
}

/// Adds the pin that a joint puts on a net, if it names one.
fn add_joint<M: Macros>(
    pins: &mut Vec<JoinedPin>,
    lookup: &PinLookup<'_, M>,
    joint: &StatedJoint,
    comp: Option<FoundComp>,
) -> Result<(), DesignFault>
    requires numbers { comp_names lookup.now.maker.now ≡ map (λ c. c.name) (named_comps lookup.now.text.now lookup.now.comps.now) }
    requires comp { FindsComp lookup.now.maker.now (word_bytes lookup.now.text.now joint.now.comp) comp }
    requires net { joint.now.net.0 < length lookup.now.maker.now.nets }
    ensures ok { OnOk result (FindsPins (has_supply_pin (M.powers lookup.now.macros.now) (named_comps lookup.now.text.now lookup.now.comps.now)) lookup.now.maker.now (stated_joint lookup.now.text.now lookup.now.maker.now.nets joint.now ∷ []) pins.old.items pins.new.items) }
    ensures err { IfErr result (PinFault (has_supply_pin (M.powers lookup.now.macros.now) (named_comps lookup.now.text.now lookup.now.comps.now)) (netlist lookup.now.maker.now) (stated_joint lookup.now.text.now lookup.now.maker.now.nets joint.now ∷ [])) }
{
    lookup.maker.facts();
    if let Some((comp, pin)) = find_joint(lookup, joint, comp)? {
        let net = joint.net;
        pins.push(JoinedPin { comp, pin, net })?;
    }
    Ok(())
}

/// Adds the pins that joints put on nets. Their components were looked up.
fn add_joints<M: Macros>(
    pins: &mut Vec<JoinedPin>,
    lookup: &PinLookup<'_, M>,
    joints: &[StatedJoint],
    found: &[Option<FoundComp>],
) -> Result<(), DesignFault>
    requires numbers { comp_names lookup.now.maker.now ≡ map (λ c. c.name) (named_comps lookup.now.text.now lookup.now.comps.now) }
    requires found { AllZip (λ j c. FindsComp lookup.now.maker.now (word_bytes lookup.now.text.now j.comp) c) joints.now found.now }
    requires nets { (s : Stated) → Contains joints.now s → s.net.0 < length lookup.now.maker.now.nets }
    ensures ok { OnOk result (FindsPins (has_supply_pin (M.powers lookup.now.macros.now) (named_comps lookup.now.text.now lookup.now.comps.now)) lookup.now.maker.now (stated_joints lookup.now.text.now lookup.now.maker.now.nets joints.now) pins.old.items pins.new.items) }
    ensures err { IfErr result (PinFault (has_supply_pin (M.powers lookup.now.macros.now) (named_comps lookup.now.text.now lookup.now.comps.now)) (netlist lookup.now.maker.now) (stated_joints lookup.now.text.now lookup.now.maker.now.nets joints.now)) }
{
    for (at, joint) in joints.iter().enumerate() {
        add_joint(pins, lookup, joint, found[at])?;
    }
    Ok(())
}

/// The names of the joints' components.
fn comp_names_of<'t>(
    alloc: Global,
    text: &'t [u8],
    joints: &[StatedJoint],
) -> Result<Vec<&'t [u8]>, Memory>
    ensures { IfOk result (λ names. map (λ n. n.now) names.items ≡ map (λ s. word_bytes text.now s.comp) joints.now) }
{
    let mut names = Vec::with_capacity(alloc, joints.len())?;
    for joint in joints {
        names.push(bytes_at(text, joint.comp))?;
    }
    Ok(names)
}

/// Adds the pins of the joints that wait.
fn settle<M: Macros>(
    alloc: Global,
    pins: &mut Vec<JoinedPin>,
    lookup: &PinLookup<'_, M>,
    waiting: &mut Vec<StatedJoint>,
) -> Result<(), DesignFault>
    requires numbers { comp_names lookup.now.maker.now ≡ map (λ c. c.name) (named_comps lookup.now.text.now lookup.now.comps.now) }
    requires nets { (s : Stated) → Contains waiting.old.items s → s.net.0 < length lookup.now.maker.now.nets }
    ensures none { OnOk result (waiting.new.items ≡ []) }
    ensures ok { OnOk result (FindsPins (has_supply_pin (M.powers lookup.now.macros.now) (named_comps lookup.now.text.now lookup.now.comps.now)) lookup.now.maker.now (stated_joints lookup.now.text.now lookup.now.maker.now.nets waiting.old.items) pins.old.items pins.new.items) }
    ensures err { IfErr result (PinFault (has_supply_pin (M.powers lookup.now.macros.now) (named_comps lookup.now.text.now lookup.now.comps.now)) (netlist lookup.now.maker.now) (stated_joints lookup.now.text.now lookup.now.maker.now.nets waiting.old.items)) }
{
    let names = comp_names_of(alloc, lookup.text, waiting)?;
    let found = lookup.maker.find_comps(alloc, &names)?;
    add_joints(pins, lookup, waiting, &found)?;
    waiting.clear();
    Ok(())
}

/// Lets a joint wait, unless `PIN` or `*` stands in its component's place.
fn add_waiting(
    waiting: &mut Vec<StatedJoint>,
    text: &[u8],
    joint: &Joint,
    net: NetId,
) -> Result<(), Memory>
    ensures joints { OnOk result ((nets : List NetRow) → stated_joints text.now nets waiting.new.items ≡ stated_joints text.now nets waiting.old.items ++ pins_among (net_name nets net.0) (named_joint text.now joint.now ∷ [])) }
    ensures nets { OnOk result ((s : Stated) → Contains waiting.new.items s → Contains waiting.old.items s ⊎ (s.net ≡ net)) }
{
    if !is_no_component(bytes_at(text, joint.comp)) {
        waiting.push(StatedJoint {
            comp: joint.comp,
            pin: joint.pin,
            net,
        })?;
    }
    Ok(())
}

/// Lets the joints of a net wait.
fn add_all_waiting(
    waiting: &mut Vec<StatedJoint>,
    text: &[u8],
    joints: &Joints,
    net: NetId,
) -> Result<(), Memory>
    ensures joints { OnOk result ((nets : List NetRow) → stated_joints text.now nets waiting.new.items ≡ stated_joints text.now nets waiting.old.items ++ pins_among (net_name nets net.0) (map (named_joint text.now) joints.now)) }
    ensures nets { OnOk result ((s : Stated) → Contains waiting.new.items s → Contains waiting.old.items s ⊎ (s.net ≡ net)) }
{
    for joint in joints.iter() {
        add_waiting(waiting, text, &joint, net)?;
    }
    Ok(())
}

/// The number of the net of a name. Most often it is the guessed one, and nothing is looked up.
fn number_of(maker: &NetlistMaker, name: &[u8], guess: NetId) -> NetId
    requires { IsNet (netlist maker.now) name.now }
    ensures { slice_get (net_names maker.now) result.0 ≡ Some name.now }
{
    if guess.0 < maker.counts().nets && maker.net_name(guess) == name {
        return guess;
    }
    match maker.find_net(name) {
        Some(number) => number,
        None => unreachable!(),
    }
}

/// Lets the joints of a statement wait, and answers the number of its net.
fn add_statement(
    waiting: &mut Vec<StatedJoint>,
    maker: &NetlistMaker,
    text: &[u8],
    net: &NetStatement,
    guess: NetId,
) -> Result<NetId, Memory>
    requires { IsNet (netlist maker.now) (named_net text.now net.now).name }
    ensures number { IfOk result (λ n. slice_get (net_names maker.now) n.0 ≡ Some (named_net text.now net.now).name) }
    ensures joints { OnOk result (stated_joints text.now maker.now.nets waiting.new.items ≡ stated_joints text.now maker.now.nets waiting.old.items ++ stated_pins (named_net text.now net.now)) }
    ensures nets { OnOk result ((s : Stated) → Contains waiting.new.items s → Contains waiting.old.items s ⊎ (s.net.0 < length maker.now.nets)) }
{
    let number = number_of(maker, bytes_at(text, net.name), guess);
    add_all_waiting(waiting, text, &net.joints, number)?;
    Ok(number)
}

/// Adds the pins of the joints that wait, if there are many.
fn settle_many<M: Macros>(
    alloc: Global,
    pins: &mut Vec<JoinedPin>,
    lookup: &PinLookup<'_, M>,
    waiting: &mut Vec<StatedJoint>,
) -> Result<(), DesignFault>
    requires numbers { comp_names lookup.now.maker.now ≡ map (λ c. c.name) (named_comps lookup.now.text.now lookup.now.comps.now) }
    requires nets { (s : Stated) → Contains waiting.old.items s → s.net.0 < length lookup.now.maker.now.nets }
    ensures ok { OnOk result ((js : List NewJoint) → FindsOrWaits (has_supply_pin (M.powers lookup.now.macros.now) (named_comps lookup.now.text.now lookup.now.comps.now)) lookup.now.text.now lookup.now.maker.now js pins.old.items waiting.old.items → FindsOrWaits (has_supply_pin (M.powers lookup.now.macros.now) (named_comps lookup.now.text.now lookup.now.comps.now)) lookup.now.text.now lookup.now.maker.now js pins.new.items waiting.new.items) }
    ensures err { IfErr result (PinFault (has_supply_pin (M.powers lookup.now.macros.now) (named_comps lookup.now.text.now lookup.now.comps.now)) (netlist lookup.now.maker.now) (stated_joints lookup.now.text.now lookup.now.maker.now.nets waiting.old.items)) }
{
    if waiting.len() < MANY {
        return Ok(());
    }
    settle(alloc, pins, lookup, waiting)
}

/// The pins that statements put on their nets, all of which are listed. Supply pins are passed over. The components are
/// listed in this order.
pub fn find_pins<M: Macros>(
    alloc: Global,
    maker: &NetlistMaker,
    text: &[u8],
    comps: &[Comp],
    macros: &M,
    nets: &[NetStatement],
) -> Result<Vec<JoinedPin>, DesignFault>
    requires numbers { comp_names maker.now ≡ map (λ c. c.name) (named_comps text.now comps.now) }
    requires nets { (s : NamedNet) → Contains (named_nets text.now nets.now) s → IsNet (netlist maker.now) s.name }
    ensures ok { IfOk result (λ pins. FindsPins (has_supply_pin (M.powers macros.now) (named_comps text.now comps.now)) maker.now (all_pins_on (named_nets text.now nets.now)) [] pins.items) }
    ensures err { IfErr result (PinFault (has_supply_pin (M.powers macros.now) (named_comps text.now comps.now)) (netlist maker.now) (all_pins_on (named_nets text.now nets.now))) }
{
    let lookup = PinLookup {
        maker,
        text,
        comps,
        macros,
    };
    let mut pins = Vec::new(alloc);
    let mut waiting = Vec::new(alloc);
    let mut guess = NetId(0);
    for net in nets {
        let number = add_statement(&mut waiting, maker, text, net, guess)?;
        settle_many(alloc, &mut pins, &lookup, &mut waiting)?;
        guess = NetId(number.0.wrapping_add(1));
    }
    settle(alloc, &mut pins, &lookup, &mut waiting)?;
    Ok(pins)
}
