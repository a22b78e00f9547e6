//! DEF designs.

use crate::line::{push_bytes, repeated};
use eco_def::{Comp, DefFault, Design, Joints, NetStatement, TopPin, read_def};
use eco_small_base::DEF;
use eco_text::{Word, between};
use std::alloc::Global;
use std::process::Abort;
use std::test::Fail;

const HEAD_LINES: &str = "DIEAREA ( 0 0 ) ( 20000 20000 ) ;
# written by hand
ROW r0 core 0 0 N DO 100 BY 1 STEP 200 0 ;
TRACKS X 100 DO 100 STEP 200 LAYER M1 ;
VIAS 1 ;
- v1 + RECT M1 ( -50 -50 ) ( 50 50 ) + RECT M2 ( -50 -50 ) ( 50 50 ) ;
END VIAS
BEGINEXT \"note\"
  any words
ENDEXT
";

const CUT: &str = "UNITS DISTANCE MICRONS 1000 ; COMPONENTS 0 ; END COMPONENTS NETS 1 ; - a ( PIN";

/// How many joints statements have.
fn joints_of(nets: &[NetStatement]) -> usize {
    let mut joints: usize = 0;
    for net in nets {
        joints = joints.saturating_add(net.joints.len());
    }
    joints
}

/// How many components, top pins, net statements and joints a design has.
fn counted(alloc: Global, design: &Design) -> Result<String, Fail> {
    let comps = design.comps.len();
    let pins = design.pins.len();
    let nets = design.nets.len();
    let joints = joints_of(design.nets.as_slice());
    Ok(format!(in alloc; "{comps} {pins} {nets} {joints}")?)
}

/// The design of a text. None of these texts is so long that it may not be read.
fn read(alloc: Global, text: &str) -> Result<Design, DefFault> {
    if 134_217_728 < text.len() {
        return Err(DefFault::Memory);
    }
    read_def(alloc, text.as_bytes())
}

/// The counts of a text's design, or its fault as it is printed.
fn told(alloc: Global, text: &str) -> Result<String, Fail> {
    match read(alloc, text) {
        Ok(design) => counted(alloc, &design),
        Err(fault) => Ok(format!(in alloc; "{fault}")?),
    }
}

/// Puts a blank and a text's word behind a line.
fn push_word(line: &mut String, text: &str, word: Word) -> Result<(), Fail> {
    line.push_str(" ")?;
    push_bytes(line, between(text.as_bytes(), word.start, word.end))
}

fn push_comp(line: &mut String, text: &str, comp: &Comp) -> Result<(), Fail> {
    line.push_str(" comp")?;
    push_word(line, text, comp.name)?;
    push_word(line, text, comp.model)?;
    if let Some(place) = comp.place {
        write!(
            line,
            " {} {} {:?}",
            place.point.x, place.point.y, place.orient
        )?;
    }
    Ok(())
}

fn push_comps(line: &mut String, text: &str, comps: &[Comp]) -> Result<(), Fail> {
    for comp in comps {
        push_comp(line, text, comp)?;
    }
    Ok(())
}

fn push_pins(line: &mut String, text: &str, pins: &[TopPin]) -> Result<(), Fail> {
    for pin in pins {
        line.push_str(if pin.supply { " supply" } else { " pin" })?;
        push_word(line, text, pin.name)?;
        push_word(line, text, pin.net)?;
        write!(line, " {:?}", pin.dir)?;
    }
    Ok(())
}

/// Puts joints behind a line, each with its text.
fn push_joints(line: &mut String, text: &str, joints: &Joints) -> Result<(), Fail> {
    for joint in joints.iter() {
        push_word(line, text, joint.comp)?;
        push_word(line, text, joint.pin)?;
        line.push_str(" <")?;
        push_bytes(line, between(text.as_bytes(), joint.start, joint.end))?;
        line.push_str(">")?;
    }
    Ok(())
}

/// Puts a statement behind a line: its name, its use, its joints and its text.
fn push_net(line: &mut String, text: &str, net: &NetStatement) -> Result<(), Fail> {
    line.push_str(if net.special { " special" } else { " net" })?;
    push_word(line, text, net.name)?;
    if let Some(usage) = net.usage {
        line.push_str(" use")?;
        push_word(line, text, usage)?;
    }
    push_joints(line, text, &net.joints)?;
    line.push_str(" <")?;
    push_bytes(line, between(text.as_bytes(), net.start, net.end))?;
    line.push_str(">")?;
    Ok(())
}

fn push_nets(line: &mut String, text: &str, nets: &[NetStatement]) -> Result<(), Fail> {
    for net in nets {
        push_net(line, text, net)?;
    }
    Ok(())
}

/// All of a text's design in one line, with the words behind the place of the END of NETS.
fn parts_of(alloc: Global, text: &str) -> Result<String, Fail> {
    let design = read(alloc, text)?;
    let mut line = format!(in alloc; "{}", design.units)?;
    push_comps(&mut line, text, design.comps.as_slice())?;
    push_pins(&mut line, text, design.pins.as_slice())?;
    push_nets(&mut line, text, design.nets.as_slice())?;
    push_word(&mut line, text, design.net_count)?;
    let end = design.nets_end;
    line.push_str(" ")?;
    push_bytes(
        &mut line,
        between(text.as_bytes(), end, end.saturating_add(8)),
    )?;
    Ok(line)
}

/// Texts, and their designs.
const DESIGNS: [(&str, &str); 4] = [
    (
        "VERSION 5.8 ; # a comment\r\nUNITS DISTANCE MICRONS 7 ; UNITS DISTANCE MICRONS 2000 ;\nCOMPONENTS 2 ;\n- u1 INV + PLACED ( -5 7 ) FN + FIXED ( 1 1 ) N ;\n\t- u2 NAND2 + UNPLACED + X \"a ; b\" ;\nEND COMPONENTS\nNETS x ; - n1 ( u1 Y + SYNTHESIZED )\n( PIN n1 ) + ROUTED M1 ( 0 0 ) + USE SIGNAL + USE ; - n2 ; END NETS END DESIGN rest \"",
        "2000 comp u1 INV -5 7 FN comp u2 NAND2 net n1 use SIGNAL u1 Y <( u1 Y + SYNTHESIZED )> PIN n1 <( PIN n1 )> <- n1 ( u1 Y + SYNTHESIZED )\n( PIN n1 ) + ROUTED M1 ( 0 0 ) + USE SIGNAL + USE ;> net n2 <- n2 ;> x END NETS",
    ),
    (
        "UNITS DISTANCE MICRONS 1 ; COMPONENTS 0 ; END COMPONENTS NETS 0 ; END NETS PINS 3 ;\n- i + NET n + NET m + SPECIAL + DIRECTION FEEDTHRU + DIRECTION INPUT + USE CLOCK + USE POWER + LAYER M1 ( 0 0 ) ( 1 1 ) ;\n- v + DIRECTION OUTPUT x y + NET VDD + USE POWER ;\n- o + NET o + USE ; END PINS END DESIGN",
        "1 pin i n Inout supply v VDD Output pin o o Inout 0 END NETS",
    ),
    (
        "UNITS DISTANCE MICRONS 1 ; COMPONENTS 0 ; END COMPONENTS SPECIALNETS 1 ; - s ; END SPECIALNETS NETS 2 ; - a ; - s ; END NETS END DESIGN",
        "1 special s <- s ;> net a <- a ;> net s <- s ;> 2 END NETS",
    ),
    (
        "UNITS DISTANCE MICRONS 1 ; COMPONENTS 0 ; END COMPONENTS NETS 2 ; - a ; - s ; END NETS SPECIALNETS 1 ; - s ; END SPECIALNETS END DESIGN",
        "1 net a <- a ;> net s <- s ;> special s <- s ;> 2 END NETS",
    ),
];

#[test]
fn the_parts_of_a_design(rt: HostRuntime) -> Result<(), Fail> {
    for (text, wanted) in DESIGNS {
        assert_eq!(rt; parts_of(rt.alloc(), text)?.as_str(), wanted, "{text}");
    }
    Ok(())
}

/// A joint with its component and its pin, and what stands before it.
#[derive(Drop)]
struct Joined<'a>(&'a str, String, &'a str, &'a str);

/// Joints with blanks or a long name at one place.
fn stretched<'a>(alloc: Global, blanks: &'a str, name: &'a str) -> Result<[Joined<'a>; 5], Fail> {
    Ok([
        Joined(blanks, String::from_str(alloc, "( u A )")?, "u", "A"),
        Joined("", format!(in alloc; "({blanks}u A )")?, "u", "A"),
        Joined("", format!(in alloc; "( {name} A )")?, name, "A"),
        Joined("", format!(in alloc; "( u{blanks}{name} )")?, "u", name),
        Joined("", format!(in alloc; "( u A{blanks})")?, "u", "A"),
    ])
}

/// The parts of a design of one net with this joint between two others, and those that are wanted.
fn among_others(alloc: Global, joined: &Joined<'_>) -> Result<(String, String), Fail> {
    let Joined(before, joint, comp, pin) = joined;
    let net = format!(in alloc; "- a ( v B ) {before}{joint} ( w C ) ;")?;
    let text = format!(in alloc;
        "UNITS DISTANCE MICRONS 1 ; COMPONENTS 0 ; END COMPONENTS NETS 1 ; {net} END NETS END DESIGN"
    )?;
    let wanted = format!(in alloc;
        "1 net a v B <( v B )> {comp} {pin} <{joint}> w C <( w C )> <{net}> 1 END NETS"
    )?;
    Ok((parts_of(alloc, text.as_str())?, wanted))
}

#[test]
fn joints_whose_words_are_near_and_far(rt: HostRuntime) -> Result<(), Fail> {
    let alloc = rt.alloc();
    for width in [1, 254, 255, 256, 1024] {
        let blanks = repeated(alloc, " ", width)?;
        let name = repeated(alloc, "n", width)?;
        for joined in &stretched(alloc, &blanks, &name)? {
            let (found, wanted) = among_others(alloc, joined)?;
            assert_eq!(rt; found, wanted, "{width}");
        }
    }
    Ok(())
}

/// The small base with a longer head, and a property of a component.
fn with_head_lines(alloc: Global) -> Result<String, Fail> {
    let text = DEF.replace(alloc, "DIEAREA ( 0 0 ) ( 20000 20000 ) ;\n", HEAD_LINES)?;
    let comp = "- u1 NAND2 + PLACED ( 1000 1000 ) N";
    let property = "- u1 NAND2 + PLACED ( 1000 1000 ) N + PROPERTY note \"a ; b\"";
    Ok(text.replace(alloc, comp, property)?)
}

#[test]
fn the_small_base_and_its_realistic_head(rt: HostRuntime) -> Result<(), Fail> {
    let alloc = rt.alloc();
    assert_eq!(rt; told(alloc, DEF)?.as_str(), "7 4 8 21");
    let second = with_head_lines(alloc)?;
    assert!(rt; second.len() > DEF.len() + 200);
    assert_eq!(rt; told(alloc, second.as_str())?.as_str(), "7 4 8 21");
    Ok(())
}

#[test]
fn each_cut_of_a_design_is_a_fault(rt: HostRuntime) -> Result<(), Fail> {
    let alloc = rt.alloc();
    let last = DEF.len().saturating_sub(1);
    for end in 0..last {
        let cut = DEF.get(..end).ok_or("no cut")?;
        assert!(rt; read(alloc, cut).is_err(), "the first {end} bytes are read");
    }
    let whole = DEF.get(..last).ok_or("no cut")?;
    assert_eq!(rt; told(alloc, whole)?.as_str(), "7 4 8 21");
    Ok(())
}

/// Texts, and their first faults as they are printed.
const FIRST_FAULTS: [(&str, &str); 29] = [
    ("VERSION \"", "Text OpenQuote place=8"),
    ("EXTRA 1 ;", "UnknownHeading place=0"),
    ("END x", "UnknownHeading place=0"),
    ("END ", "Unended place=4"),
    ("END DESIGN", "Missing which=UNITS"),
    ("NETS 0 ; END NETS END DESIGN", "Missing which=UNITS"),
    (
        "UNITS DISTANCE MICRONS 1 ; NETS 0 ; END NETS END DESIGN",
        "Missing which=COMPONENTS",
    ),
    (
        "UNITS DISTANCE MICRONS 1 ; COMPONENTS 0 ; END COMPONENTS END DESIGN",
        "Missing which=NETS",
    ),
    ("UNITS DISTANCE MICRONS 0 ; \"x", "BadStatement place=23"),
    ("UNITS DISTANCE MICRONS 01 ;", "BadStatement place=23"),
    ("UNITS DISTANCE MICRONS 1000001 ;", "BadStatement place=23"),
    ("COMPONENTS 2 ; - u INV ; - u", "TwiceNamed place=27"),
    (
        "COMPONENTS 1 ; - u INV + PLACED ( 1 2147483648 ) N ;",
        "BadStatement place=36",
    ),
    ("PINS 2 ; - a x", "BadStatement place=13"),
    ("PINS 1 ; - a + DIRECTION INPUT ;", "BadStatement place=31"),
    ("PINS 1 ; - a + DIRECTION UP ;", "BadStatement place=25"),
    ("PINS 2 ; - a + NET a ; - a", "TwiceNamed place=25"),
    ("PINS 0 ; END PINS PINS", "TwiceNamed place=18"),
    ("SPECIALNETS 1 ; - \"a\" ;", "BadStatement place=18"),
    (
        "SPECIALNETS 0 ; END SPECIALNETS SPECIALNETS",
        "TwiceNamed place=32",
    ),
    ("NETS 1 ; - MUSTJOIN ( u1 A ) ;", "MustJoin place=11"),
    ("NETS 1 ; - a ; - a ( ; ", "TwiceNamed place=17"),
    ("NETS 1 ; END NETS NETS", "TwiceNamed place=18"),
    ("NETS 1 ; - a ( u A ) x", "BadStatement place=21"),
    ("NETS 1 ; - a ( u A + X )", "BadStatement place=21"),
    ("VIAS 1 ; - v END", "Unended place=16"),
    (
        "VIAS 1 ; END STYLES END VIAS END DESIGN",
        "Missing which=UNITS",
    ),
    ("BEGINEXT END DESIGN", "Unended place=19"),
    ("TRACKS X 1 END DESIGN", "Unended place=21"),
];

#[test]
fn first_faults_with_their_places(rt: HostRuntime) -> Result<(), Fail> {
    for (text, wanted) in FIRST_FAULTS {
        assert_eq!(rt; told(rt.alloc(), text)?.as_str(), wanted, "{text}");
    }
    Ok(())
}

/// How a text that is cut within a joint ends, and its fault.
const CUTS: [(&str, &str); 3] = [
    ("", "Unended place=78"),
    (" \"x", "Text OpenQuote place=79"),
    (" # x", "Unended place=82"),
];

#[test]
fn a_text_that_ends_within_a_joint(rt: HostRuntime) -> Result<(), Fail> {
    let alloc = rt.alloc();
    for (rest, wanted) in CUTS {
        let text = format!(in alloc; "{CUT}{rest}")?;
        assert_eq!(rt; told(alloc, text.as_str())?.as_str(), wanted);
    }
    Ok(())
}

/// Sections of one net with two joints, as tools write them.
const AS_TOOLS_WRITE: [&str; 7] = [
    "NETS 1 ;\n- a\n  ( PIN a )\n  ( u1 A )\n  + USE SIGNAL\n;\nEND NETS",
    "NETS 1 ; \r\n- a ( PIN a ) ( u1 A )  \r\n\r\n ;\t\r\nEND NETS\r\n",
    "TRACKS X -480.0 DO 100 STEP 200 LAYER M1 ;\nBUSBITCHARS \"<>\" ;\nNETS 1 ; - c[3] ( PIN c[3] ) ( u1/x A ) ; END NETS",
    "NETS 99 ; - a$b<1>\\[2\\] ( PIN a + SYNTHESIZED ) ( * A ) ; END NETS",
    "GCELLGRID X 0 DO 1 STEP 1 ;\nTECHNOLOGY t ;\nHISTORY any words ;\nNAMESCASESENSITIVE ON ;\nCOMPONENTMASKSHIFT M1 ;\nNETS ; ; - a ( PIN a ) ( u A ) ; END NETS",
    "PROPERTYDEFINITIONS NET p STRING ; END PROPERTYDEFINITIONS\nSTYLES 0 ; END STYLES\nNONDEFAULTRULES 0 ; END NONDEFAULTRULES\nREGIONS 0 ; END REGIONS\nPINPROPERTIES 0 ; END PINPROPERTIES\nBLOCKAGES 0 ; END BLOCKAGES\nSLOTS 0 ; END SLOTS\nFILLS 0 ; END FILLS\nSCANCHAINS 0 ; END SCANCHAINS\nGROUPS 0 ; END GROUPS\nNETS 1 ; - a ( PIN a ) ( u A ) ; END NETS",
    "BEGINEXT \"x\" NETS 1 ; - a ENDEXT NETS 1 ; - a ( PIN a ) ( u A ) + ROUTED M1 ( 0 0 ) ( * 5 ) VIA_1 + PROPERTY p \"; END NETS\" ; END NETS",
];

#[test]
fn texts_as_tools_write_them(rt: HostRuntime) -> Result<(), Fail> {
    let alloc = rt.alloc();
    for nets in AS_TOOLS_WRITE {
        let text = format!(in alloc;
            "DESIGN d ;\nUNITS DISTANCE MICRONS 1 ;\n{nets}\nCOMPONENTS 3 ; END COMPONENTS\nEND DESIGN\n"
        )?;
        assert_eq!(rt; told(alloc, text.as_str())?.as_str(), "0 0 1 2", "{nets}");
    }
    Ok(())
}

/// A section of so many statements, whose names are numbers, up to its END.
fn section(alloc: Global, heading: &str, count: u32, rest: &str) -> Result<String, Fail> {
    let mut text = format!(in alloc; "{heading} 0 ;")?;
    for number in 0..count {
        write!(text, " - {number}{rest} ;")?;
    }
    Ok(text)
}

/// What is told of a text with one more statement of a name.
fn with_one_more(alloc: Global, text: &str, name: &str, rest: &str) -> Result<String, Fail> {
    let more = format!(in alloc; "{text} - {name}{rest} ;")?;
    told(alloc, more.as_str())
}

/// Behind as many statements as may stand, one more is refused at its name, and one that stands already is told first.
fn has_no_room(rt: &impl Abort, alloc: Global, text: &str, rest: &str) -> Result<(), Fail> {
    let place = text.len().saturating_add(3);
    for (name, fault) in [("x", "Limit"), ("7", "TwiceNamed")] {
        let wanted = format!(in alloc; "{fault} place={place}")?;
        assert_eq!(rt; with_one_more(alloc, text, name, rest)?, wanted);
    }
    Ok(())
}

#[test]
fn a_million_components_and_one(rt: HostRuntime) -> Result<(), Fail> {
    let alloc = rt.alloc();
    let text = section(alloc, "COMPONENTS", 1_000_000, " M")?;
    let whole = format!(in alloc;
        "UNITS DISTANCE MICRONS 1 ; {text} END COMPONENTS NETS 0 ; END NETS END DESIGN"
    )?;
    assert_eq!(rt; told(alloc, &whole)?.as_str(), "1000000 0 0 0");
    has_no_room(&rt, alloc, &text, " M")
}

#[test]
fn a_million_top_pins_and_one(rt: HostRuntime) -> Result<(), Fail> {
    let alloc = rt.alloc();
    let text = section(alloc, "PINS", 1_000_000, " + NET n")?;
    let whole = format!(in alloc;
        "UNITS DISTANCE MICRONS 1 ; COMPONENTS 0 ; END COMPONENTS NETS 0 ; END NETS {text} END PINS END DESIGN"
    )?;
    assert_eq!(rt; told(alloc, &whole)?.as_str(), "0 1000000 0 0");
    has_no_room(&rt, alloc, &text, " + NET n")
}

#[test]
fn a_million_net_statements_and_one(rt: HostRuntime) -> Result<(), Fail> {
    let alloc = rt.alloc();
    let special = section(alloc, "SPECIALNETS", 400_000, "")?;
    let nets = section(alloc, "NETS", 600_000, "")?;
    let text = format!(in alloc; "{special} END SPECIALNETS {nets}")?;
    let whole = format!(in alloc;
        "UNITS DISTANCE MICRONS 1 ; COMPONENTS 0 ; END COMPONENTS {text} END NETS END DESIGN"
    )?;
    assert_eq!(rt; told(alloc, &whole)?.as_str(), "0 0 1000000 0");
    has_no_room(&rt, alloc, &text, "")
}

#[test]
fn four_million_joints_and_one(rt: HostRuntime) -> Result<(), Fail> {
    let alloc = rt.alloc();
    let joints = repeated(alloc, "( u A ) ", 2_000_000)?;
    let text = format!(in alloc;
        "SPECIALNETS 1 ; - s {joints}; END SPECIALNETS NETS 2 ; - a {joints}; - b "
    )?;
    let place = text.len();
    let more = format!(in alloc; "{text}( u")?;
    let wanted = format!(in alloc; "Limit place={place}")?;
    assert_eq!(rt; told(alloc, &more)?, wanted);
    let cut = format!(in alloc; "Unended place={place}")?;
    assert_eq!(rt; told(alloc, &text)?, cut);
    Ok(())
}
