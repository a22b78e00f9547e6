//! Whether the joints that name no component are right.

ghost use Rattle.std.specs.Prelude.{◌≡◌, ◌||◌, not, IfOk};
ghost use Rattle.std.specs.List.{list_all};
ghost use Rattle.std.specs.Str.{bytes_eq};
ghost use Rattle.eco_text.specs.Cursor.{word_bytes};
ghost use Rattle.eco_elaborate.specs.Stated.{named_pin};
ghost use Rattle.eco_pin_faults.specs.Faults.{is_on, is_right, named};
ghost use Rattle.eco_pin_faults.specs.Held.{at_name, right_by};
ghost use Rattle.eco_pin_faults.specs.Places.{joints, top_word};
ghost use Rattle.std.specs.Option.{option_map};

use crate::design_pins::{Tops, tops_of};
use crate::words::{is_any, is_top};
use eco_common::Memory;
use eco_def::{Design, Joint, NetStatement};
use eco_text::bytes_at;
use std::alloc::Global;

/// Whether there is a top pin of the name that is supply or has the net.
fn is_top_on(tops: &Tops<'_>, text: &[u8], pin: &[u8], net: &[u8]) -> bool
    ensures { result ≡ is_on (option_map (named_pin text.now) (at_name tops.now pin.now)) net.now }
{
    match tops.get(&pin) {
        None => false,
        Some(top) => top.supply || bytes_at(text, top.net) == net,
    }
}

/// Whether a joint that names no component is right. `PIN` stands for the design's own pins, `*` in SPECIALNETS for every
/// component that has the pin.
fn joint_is_right(
    tops: &Tops<'_>,
    text: &[u8],
    net: &NetStatement,
    joint: &Joint,
    name: &[u8],
) -> bool
    ensures { result ≡ right_by (λ n. option_map (named_pin text.now) (at_name tops.now n)) net.now.special (word_bytes text.now joint.now.comp) (word_bytes text.now joint.now.pin) name.now }
{
    let comp = bytes_at(text, joint.comp);
    if is_top(comp) {
        return is_top_on(tops, text, bytes_at(text, joint.pin), name);
    }
    net.special || !is_any(comp)
}

/// Whether all joints of a statement are.
fn are_right(tops: &Tops<'_>, text: &[u8], net: &NetStatement) -> bool
    ensures { result ≡ list_all (λ j. right_by (λ n. option_map (named_pin text.now) (at_name tops.now n)) net.now.special (word_bytes text.now j.comp) (word_bytes text.now j.pin) (word_bytes text.now net.now.name)) net.now.joints }
{
    let name = bytes_at(text, net.name);
    net.joints
        .iter()
        .all(|joint| joint_is_right(tops, text, net, &joint, name))
}

/// Whether all joints of the statements are.
fn all_are_right(tops: &Tops<'_>, text: &[u8], nets: &[NetStatement]) -> bool
    ensures { result ≡ list_all (λ s. list_all (λ j. right_by (λ n. option_map (named_pin text.now) (at_name tops.now n)) s.special (word_bytes text.now j.comp) (word_bytes text.now j.pin) (word_bytes text.now s.name)) s.joints) nets.now }
{
    nets.iter().all(|net| are_right(tops, text, net))
}

/// Whether each joint that names no component is right: `( PIN x )` names a top pin, which is supply or has that net, and
/// `( * x )` stands in SPECIALNETS.
pub fn tops_agree(alloc: Global, text: &[u8], design: &Design) -> Result<bool, Memory>
    ensures { IfOk result (λ b. b ≡ list_all (is_right (named text.now design.now)) (joints text.now design.now)) }
{
    let tops = tops_of(alloc, text, design.pins.as_slice())?;
    Ok(all_are_right(&tops, text, design.nets.as_slice()))
}
