//! Texts that are issued: one pin moved, or many pins and new nets.

ghost use Rattle.std.specs.Prelude.{◌≡◌, map};
ghost use Rattle.std.specs.List.{list_any};
ghost use Rattle.eco_def.specs.Sections.{IsReadingOf};
ghost use Rattle.eco_overlay.specs.Overlays.{IsMadeFor};
ghost use Rattle.eco_overlay.specs.PinMoves.{joint_by_names, same_pin, are_pins_apart, ArePinsApart};

use crate::said::agree;
use eco_common::Name;
use eco_def::{Design, read_def};
use eco_overlay::{NewJoint, Overlay, emit, emit_len, move_joint};
use eco_small_base::DEF;
use eco_text::ByteSink;
use std::alloc::Global;
use std::test::Fail;

/// The text that is written by an overlay, which has the length that is told before.
pub fn written(
    alloc: Global,
    text: &[u8],
    design: &Design,
    overlay: &Overlay,
) -> Result<String, Fail>
    requires reading { IsReadingOf text.now design.now }
    requires made { IsMadeFor text.now design.now overlay.now }
{
    let mut sink = ByteSink::new(Vec::new(alloc));
    if emit(text, design, overlay, &mut sink).is_err() {
        return Err("a sink that fails".into());
    }
    if emit_len(text, design, overlay) != sink.bytes().len() as u64 {
        return Err("another length".into());
    }
    Ok(String::from_utf8(Vec::from_slice(alloc, sink.bytes())?)?)
}

/// The text with one pin moved, or the fault. The words are a component and its pin, and the nets that the pin leaves and
/// comes to.
fn moved(alloc: Global, text: &str, words: [&str; 4]) -> Result<String, Fail> {
    let text = text.as_bytes();
    if 10_000 < text.len() {
        return Err("a text that is too long".into());
    }
    let design = read_def(alloc, text)?;
    let [comp, pin, from, to] = words;
    let made = move_joint(
        alloc,
        text,
        &design,
        comp.as_bytes(),
        pin.as_bytes(),
        from.as_bytes(),
        to.as_bytes(),
    );
    match made {
        Ok(overlay) => written(alloc, text, &design, &overlay),
        Err(fault) => Ok(format!(in alloc; "{fault}")?),
    }
}

const AS_TOOLS_WRITE: &str =
    "UNITS DISTANCE MICRONS 1 ; COMPONENTS 2 ; - u/1 INV ; - u\\[2\\] INV ; END COMPONENTS\r\n\
    NETS 3 ; - a[0]\r\n\t( u/1 A # here\n ) ( u\\[2\\] A + SYNTHESIZED ) ( u/1 B ) + USE SIGNAL + ROUTED M1 ( 0 0 ) ;\n\
    - b ( u/1 A ) + USE CLOCK ; - c ; END NETS END DESIGN";

const AS_TOOLS_WROTE: &str =
    "UNITS DISTANCE MICRONS 1 ; COMPONENTS 2 ; - u/1 INV ; - u\\[2\\] INV ; END COMPONENTS\r\n\
    NETS 3 ; - a[0] ( u\\[2\\] A + SYNTHESIZED ) ( u/1 B ) + USE SIGNAL ;\n\
    - b + USE CLOCK ; - c ( u/1 A ) ; END NETS END DESIGN";

/// A text, the words of a move, and what is said.
const MOVES: [(&str, [&str; 4], &str); 10] = [
    (DEF, ["r1", "D", "n2", "n2"], DEF),
    (AS_TOOLS_WRITE, ["u/1", "A", "a[0]", "c"], AS_TOOLS_WROTE),
    (DEF, ["u9", "D", "n2", "n1"], "UnknownComponent"),
    (DEF, ["PIN", "a", "a", "n1"], "UnknownComponent"),
    (DEF, ["u9", "D", "zz", "zz"], "UnknownComponent"),
    (DEF, ["r1", "D", "a", "n1"], "NotOnNet"),
    (DEF, ["r1", "D", "a", "zz"], "NotOnNet"),
    (DEF, ["r1", "D", "zz", "n1"], "NotOnNet"),
    (DEF, ["r1", "Q", "n2", "n1"], "NotOnNet"),
    (DEF, ["r1", "D", "n2", "zz"], "UnknownNet"),
];

/// The small base with the register's pin D on n1.
fn wanted_text(alloc: Global) -> Result<String, Fail> {
    let routed = DEF.replace(
        alloc,
        "- n1 ( u1 Y ) ( u2 A ) + ROUTED M1 ( 1000 1000 ) ( 3000 * ) ;",
        "- n1 ( u1 Y ) ( u2 A ) ( r1 D ) ;",
    )?;
    Ok(routed.replace(alloc, "- n2 ( u2 Y ) ( r1 D ) ;", "- n2 ( u2 Y ) ;")?)
}

fn check_move(alloc: Global, text: &str, words: [&str; 4], wanted: &str) -> Result<(), Fail> {
    agree(moved(alloc, text, words)?.as_str(), wanted, text)
}

#[test]
fn one_pin_moved_and_all_else_as_it_was(rt: HostRuntime) -> Result<(), Fail> {
    for (text, words, wanted) in &MOVES {
        check_move(rt.alloc(), text, *words, wanted)?;
    }
    let wanted = wanted_text(rt.alloc())?;
    assert_eq!(rt; wanted.len() + 37, DEF.len());
    check_move(rt.alloc(), DEF, ["r1", "D", "n2", "n1"], wanted.as_str())
}

fn is_of_pin(joint: &NewJoint, other: &NewJoint) -> bool
    ensures { result ≡ same_pin (joint_by_names joint.now) (joint_by_names other.now) }
{
    joint.comp.is(other.comp.bytes()) && joint.pin.is(other.pin.bytes())
}

fn is_named(joint: &NewJoint, others: &[NewJoint]) -> bool
    ensures { result ≡ list_any (same_pin (joint_by_names joint.now)) (map joint_by_names others.now) }
{
    match others {
        [other, rest @ ..] => is_of_pin(joint, other) || is_named(joint, rest),
        [] => false,
    }
}

/// Whether no two joints name the same pin.
fn are_apart(joints: &[NewJoint]) -> bool
    ensures { result ≡ are_pins_apart (map joint_by_names joints.now) }
{
    match joints {
        [joint, rest @ ..] => !is_named(joint, rest) && are_apart(rest),
        [] => true,
    }
}

/// Joints of the rows' pins and nets.
fn joints_of(alloc: Global, rows: &[[&str; 3]]) -> Result<Vec<NewJoint>, Fail> {
    let mut joints = Vec::new(alloc);
    for [comp, pin, net] in rows {
        joints.push(NewJoint {
            comp: Name::of(alloc, comp.as_bytes())?,
            pin: Name::of(alloc, pin.as_bytes())?,
            net: Name::of(alloc, net.as_bytes())?,
        })?;
    }
    Ok(joints)
}

fn names_of(alloc: Global, texts: &[&str]) -> Result<Vec<Name>, Fail> {
    let mut names = Vec::new(alloc);
    for text in texts {
        names.push(Name::of(alloc, text.as_bytes())?)?;
    }
    Ok(names)
}

/// The text with these joints and new nets.
#[tactic(auto, using(eco_overlay::proofs::Changing::apart_from))]
fn issued(alloc: Global, text: &str, joints: &[[&str; 3]], nets: &[&str]) -> Result<String, Fail> {
    let text = text.as_bytes();
    if 10_000 < text.len() {
        return Err("a text that is too long".into());
    }
    let joints = joints_of(alloc, joints)?;
    let nets = names_of(alloc, nets)?;
    if !are_apart(&joints) {
        return Err("two joints of one pin".into());
    }
    let design = read_def(alloc, text)?;
    let overlay = Overlay::of(alloc, text, &design, &joints, &nets)?;
    written(alloc, text, &design, &overlay)
}

/// The text, the new joints and nets, and the issued text.
struct Issue(
    &'static str,
    &'static [[&'static str; 3]],
    &'static [&'static str],
    &'static str,
);

const IN_ORDER: &str = "UNITS DISTANCE MICRONS 1 ; COMPONENTS 0 ; END COMPONENTS\n\
    NETS 2 ; - a ( u1 B ) ( u2 A ) + USE CLOCK ; - b ; END NETS END DESIGN";

const ISSUES: [Issue; 4] = [
    Issue(DEF, &[], &[], DEF),
    Issue(IN_ORDER, &[], &[], IN_ORDER),
    // pins and new nets in order, whatever order they are given in
    Issue(
        IN_ORDER,
        &[
            ["u2", "C", "a"],
            ["u10", "B", "a"],
            ["u10", "A", "a"],
            ["u2", "A", "n10"],
            ["u1", "B", "a"],
            ["u9", "Z", "b"],
            ["u9", "A", "n9"],
        ],
        &["o", "n9", "n10", "N"],
        "UNITS DISTANCE MICRONS 1 ; COMPONENTS 0 ; END COMPONENTS\n\
         NETS 6 ; - a ( u1 B ) ( u10 A ) ( u10 B ) ( u2 C ) + USE CLOCK ; - b ( u9 Z ) ; \
         - N ;\n- n10 ( u2 A ) ;\n- n9 ( u9 A ) ;\n- o ;\nEND NETS END DESIGN",
    ),
    // nets in both sections, and one of top pins alone
    Issue(
        "UNITS DISTANCE MICRONS 1 ; COMPONENTS 0 ; END COMPONENTS \
         PINS 3 ; - p + NET top ; - q + NET top ; - r + NET other ; END PINS \
         NETS 1 ; - n\t( u1 A ) ( u1 B ) + USE CLOCK + ROUTED M1 ; END NETS \
         SPECIALNETS 3 ; - n ( u2 A # left\n ) ( PIN p ) + ROUTED M1 ( 0 0 ) + USE CLOCK ; \
         - s\t( u3 A ) ( u3 B + SYNTHESIZED )\t+ SHAPE RING + USE GROUND ; - e + FIXED M1 ; END SPECIALNETS END DESIGN",
        &[
            ["u2", "A", "s"],
            ["u3", "A", "n"],
            ["u1", "B", "top"],
            ["u0", "Z", "top"],
            ["u4", "A", "e"],
        ],
        &[],
        "UNITS DISTANCE MICRONS 1 ; COMPONENTS 0 ; END COMPONENTS \
         PINS 3 ; - p + NET top ; - q + NET top ; - r + NET other ; END PINS \
         NETS 2 ; - n ( u1 A ) ( u3 A ) + USE CLOCK ; - top ( u0 Z ) ( u1 B ) ;\nEND NETS \
         SPECIALNETS 3 ; - n ( PIN p ) + ROUTED M1 ( 0 0 ) + USE CLOCK ; \
         - s ( u3 B + SYNTHESIZED ) ( u2 A )\t+ SHAPE RING + USE GROUND ; - e ( u4 A ) + FIXED M1 ; END SPECIALNETS END DESIGN",
    ),
];

fn check_issue(alloc: Global, issue: &Issue) -> Result<(), Fail> {
    let Issue(text, joints, nets, wanted) = issue;
    agree(issued(alloc, text, joints, nets)?.as_str(), wanted, text)
}

#[test]
fn pins_and_new_nets_in_both_sections(rt: HostRuntime) -> Result<(), Fail> {
    for issue in &ISSUES {
        check_issue(rt.alloc(), issue)?;
    }
    Ok(())
}
