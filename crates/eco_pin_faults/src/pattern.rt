//! The first pattern on a pin that isn't supply.

ghost use Rattle.std.specs.Prelude.{◌≡◌, ◌&&◌, ◌||◌, ℕ, List, Bool, true, not, map, IfOk, OnOk, if◌then◌else◌};
ghost use Rattle.std.specs.List.{list_any, find};
ghost use Rattle.std.specs.Option.{option_map};
ghost use Rattle.std.specs.Str.{bytes_eq};
ghost use Rattle.eco_common.specs.KnownNames.{knows};
ghost use Rattle.eco_net.specs.Netlist.{Name as Named};
ghost use Rattle.eco_text.specs.Cursor.{word_bytes};
ghost use Rattle.eco_pin_faults.specs.Faults.{first_pattern, pattern_at};
ghost use Rattle.eco_pin_faults.specs.Held.{place_by};
ghost use Rattle.eco_pin_faults.specs.Patterns.{AreCleared, AreSeen, is_pattern_on, is_signal_on};
ghost use Rattle.eco_pin_faults.specs.Places.{every_word, joint_place, joints_on, joints_among};

use crate::faults::Pattern;
use crate::known_pins::model_has;
use crate::placed_pin::{PlacedPin, joint_at};
use crate::unknown::is_for_every;
use crate::words::is_any;
use eco_common::{Memory, Name, Names, add_name};
use eco_def::{Comp, Design, Joints, NetStatement};
use eco_elaborate::Macros;
use eco_text::bytes_at;
use std::alloc::{AllocError, Global};
use std::collections::HashMap;

/// Adds a model, unless it is there.
fn add_model<'a>(
    models: &mut Vec<&'a [u8]>,
    seen: &mut Names<'a>,
    model: &'a [u8],
) -> Result<(), AllocError>
    requires { AreSeen seen.old (map (λ m. m.now) models.old.items) }
    ensures seen { OnOk result (AreSeen seen.new (map (λ m. m.now) models.new.items)) }
    ensures models { OnOk result ((test : Named → Bool) → list_any (λ m. test m.now) models.new.items ≡ (list_any (λ m. test m.now) models.old.items || test model.now)) }
{
    let is_new = add_name(seen, model)?;
    if is_new {
        models.push(model)?;
    }
    Ok(())
}

/// The models of the components, each once.
fn models_of<'a>(alloc: Global, text: &'a [u8], comps: &[Comp]) -> Result<Vec<&'a [u8]>, AllocError>
    ensures { IfOk result (λ models. (test : Named → Bool) → list_any (λ m. test m.now) models.items ≡ list_any (λ c. test (word_bytes text.now c.model)) comps.now) }
{
    let mut models = Vec::new(alloc);
    let mut seen = HashMap::new(alloc);
    for comp in comps {
        add_model(&mut models, &mut seen, bytes_at(text, comp.model))?;
    }
    Ok(models)
}

/// Whether one of the models has the pin, and not as a supply pin.
fn is_on_some<M: Macros>(macros: &M, models: &[&[u8]], pin: &[u8]) -> Result<bool, Memory>
    ensures { IfOk result (λ b. b ≡ is_signal_on (M.kinds macros.now) models.now pin.now) }
{
    for model in models {
        let has = model_has(macros, *model, pin)?;
        if has {
            return Ok(true);
        }
    }
    Ok(false)
}

/// Whether a joint is a pattern on a pin that isn't supply on one of the models. A pin that isn't one is cleared.
fn is_pattern<'a, M: Macros>(
    cleared: &mut Names<'a>,
    macros: &M,
    models: &[&[u8]],
    place: &PlacedPin<'a>,
) -> Result<bool, Memory>
    requires { AreCleared (M.kinds macros.now) models.now cleared.old }
    ensures found { IfOk result (λ b. b ≡ is_pattern_on (M.kinds macros.now) models.now (place_by place.now)) }
    ensures cleared { OnOk result (AreCleared (M.kinds macros.now) models.now cleared.new) }
{
    if !is_for_every(place) {
        return Ok(false);
    }
    if cleared.contains_key(&place.pin) {
        return Ok(false);
    }
    let found = is_on_some(macros, models, place.pin)?;
    if found {
        return Ok(true);
    }
    add_name(cleared, place.pin)?;
    Ok(false)
}

/// The first such joint of a statement.
fn first_of_joints<'a, M: Macros>(
    cleared: &mut Names<'a>,
    macros: &M,
    models: &[&[u8]],
    text: &'a [u8],
    net: &NetStatement,
    joints: &Joints,
) -> Result<Option<PlacedPin<'a>>, Memory>
    requires { AreCleared (M.kinds macros.now) models.now cleared.old }
    ensures found { IfOk result (λ o. option_map place_by o ≡ find (is_pattern_on (M.kinds macros.now) models.now) (map (joint_place text.now net.now) joints.now)) }
    ensures cleared { OnOk result (AreCleared (M.kinds macros.now) models.now cleared.new) }
{
    for joint in joints.iter() {
        let place = joint_at(text, net, &joint);
        let passes = is_pattern(cleared, macros, models, &place)?;
        if passes {
            return Ok(Some(place));
        }
    }
    Ok(None)
}

/// The first such joint of a statement, if it is one of SPECIALNETS.
fn first_of_statement<'a, M: Macros>(
    cleared: &mut Names<'a>,
    macros: &M,
    models: &[&[u8]],
    text: &'a [u8],
    net: &NetStatement,
) -> Result<Option<PlacedPin<'a>>, Memory>
    requires { AreCleared (M.kinds macros.now) models.now cleared.old }
    ensures found { IfOk result (λ o. option_map place_by o ≡ find (is_pattern_on (M.kinds macros.now) models.now) (joints_on text.now net.now)) }
    ensures cleared { OnOk result (AreCleared (M.kinds macros.now) models.now cleared.new) }
{
    if net.special {
        first_of_joints(cleared, macros, models, text, net, &net.joints)
    } else {
        Ok(None)
    }
}

/// The first such joint.
fn first_on_models<'a, M: Macros>(
    cleared: &mut Names<'a>,
    macros: &M,
    models: &[&[u8]],
    text: &'a [u8],
    nets: &[NetStatement],
) -> Result<Option<PlacedPin<'a>>, Memory>
    requires { AreCleared (M.kinds macros.now) models.now cleared.old }
    ensures { IfOk result (λ o. option_map place_by o ≡ find (is_pattern_on (M.kinds macros.now) models.now) (joints_among text.now nets.now)) }
{
    for net in nets {
        let first = first_of_statement(cleared, macros, models, text, net)?;
        if first.is_some() {
            return Ok(first);
        }
    }
    Ok(None)
}

fn any_every(text: &[u8], joints: &Joints) -> bool
    ensures { result ≡ list_any (λ j. bytes_eq (word_bytes text.now j.comp) every_word) joints.now }
{
    joints
        .iter()
        .any(|joint| is_any(bytes_at(text, joint.comp)))
}

/// Whether a statement of SPECIALNETS has a joint of `*`.
fn has_every(text: &[u8], net: &NetStatement) -> bool
    ensures { result ≡ (net.now.special && list_any (λ j. bytes_eq (word_bytes text.now j.comp) every_word) net.now.joints) }
{
    net.special && any_every(text, &net.joints)
}

/// Whether SPECIALNETS has a joint of `*`.
fn have_every(text: &[u8], nets: &[NetStatement]) -> bool
    ensures { result ≡ list_any (λ s. s.special && list_any (λ j. bytes_eq (word_bytes text.now j.comp) every_word) s.joints) nets.now }
{
    nets.iter().any(|net| has_every(text, net))
}

/// The first joint `( * pin )` in SPECIALNETS of a pin that isn't supply on some component's macro.
///
/// Each pin's name is looked for at most once in each distinct macro.
pub fn find_pattern<M: Macros>(
    alloc: Global,
    text: &[u8],
    design: &Design,
    macros: &M,
) -> Result<Option<Pattern>, Memory>
    ensures { IfOk result (λ o. o ≡ option_map pattern_at (first_pattern (M.kinds macros.now) text.now design.now)) }
{
    let nets = design.nets.as_slice();
    if !have_every(text, nets) {
        return Ok(None);
    }
    let comps = design.comps.as_slice();
    let models = models_of(alloc, text, comps)?;
    let distinct = models.as_slice();
    let mut cleared = HashMap::new(alloc);
    let first = first_on_models(&mut cleared, macros, distinct, text, nets)?;
    match first {
        None => Ok(None),
        Some(place) => {
            let net = Name::of(alloc, place.net)?;
            let pin = Name::of(alloc, place.pin)?;
            Ok(Some(Pattern { net, pin }))
        }
    }
}
