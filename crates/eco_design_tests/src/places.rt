//! Pins that name nothing, stand on two nets, or are patterns.

use crate::said::agree;
use eco_def::{Design, read_def};
use eco_func::{Functions, read_functions};
use eco_pin_faults::{find_pattern, find_two_nets, find_unknown_pin, tops_agree};
use eco_small_base::FUNCTIONS;
use std::alloc::Global;
use std::test::Fail;

/// PINS, where it stands before the nets; SPECIALNETS; NETS; PINS, where it stands behind them; and the faults.
type Case = [&'static str; 5];

const A_ON_N1: &str = "PINS 1 ; - a + NET n1 ; END PINS";

const V_IS_SUPPLY: &str = "PINS 1 ; - v + NET n1 + USE POWER ; END PINS";

const CASES: [Case; 15] = [
    ["", "", "- n1 ( u1 A ) ; - n2 ( u1 Y ) ;", "", ""],
    [
        "",
        "",
        "- n1 ( u1 A ) ; - n2 ( u1 A ) ; - n3 ( u1 A ) ;",
        "",
        " two nets u1/A n1 n2",
    ],
    ["", "", "- n1 ( u1 A ) ( u1 A ) ;", "", ""],
    [A_ON_N1, "", "- n1 ( PIN a ) ;", "", ""],
    [
        A_ON_N1,
        "",
        "- n2 ( PIN a ) ;",
        "",
        " two nets PIN/a n1 n2 wrong top pin",
    ],
    [
        "",
        "",
        "- n2 ( PIN a ) ;",
        A_ON_N1,
        " two nets PIN/a n2 n1 wrong top pin",
    ],
    [V_IS_SUPPLY, "", "- n2 ( PIN v ) ;", "", ""],
    // the places are those of the brackets
    [
        "",
        "",
        "- n1 ( u1 A ) ( u9 A ) ( u8 A ) ;",
        "",
        " unknown n1 125",
    ],
    ["", "", "- n1 ( u1 Q ) ;", "", " unknown n1 116"],
    [
        A_ON_N1,
        "",
        "- n1 ( PIN q ) ;",
        "",
        " unknown n1 148 wrong top pin",
    ],
    [
        "",
        "",
        "- n1 ( * A ) ;",
        "",
        " unknown n1 116 wrong top pin",
    ],
    [
        "",
        "- VDD ( * VDD ) ; - VSS ( * A ) ;",
        "",
        "",
        " pattern VSS A",
    ],
    ["", "- VDD ( * VDD ) ;", "", "", ""],
    ["", "- VDD ( * ZZ ) ;", "", "", ""],
    [
        "",
        "- VDD ( * ZZ ) ( * Y ) ( * ZZ ) ;",
        "",
        "",
        " pattern VDD Y",
    ],
];

fn unknown_said(
    alloc: Global,
    text: &[u8],
    design: &Design,
    macros: &Functions,
) -> Result<String, Fail> {
    match find_unknown_pin(alloc, text, design, macros)? {
        Some(found) => Ok(format!(in alloc; " unknown {} {}", found.net, found.place)?),
        None => Ok(String::new(alloc)),
    }
}

fn two_nets_said(
    alloc: Global,
    text: &[u8],
    design: &Design,
    macros: &Functions,
) -> Result<String, Fail> {
    match find_two_nets(alloc, text, design, macros)? {
        Some(found) => Ok(format!(in alloc;
            " two nets {} {} {}",
            found.pin, found.first, found.second
        )?),
        None => Ok(String::new(alloc)),
    }
}

fn pattern_said(
    alloc: Global,
    text: &[u8],
    design: &Design,
    macros: &Functions,
) -> Result<String, Fail> {
    match find_pattern(alloc, text, design, macros)? {
        Some(found) => Ok(format!(in alloc; " pattern {} {}", found.net, found.pin)?),
        None => Ok(String::new(alloc)),
    }
}

fn tops_said(alloc: Global, text: &[u8], design: &Design) -> Result<&'static str, Fail> {
    Ok(if tops_agree(alloc, text, design)? {
        ""
    } else {
        " wrong top pin"
    })
}

/// What is wrong with the pins of a design that was read.
fn faults_said(
    alloc: Global,
    text: &[u8],
    design: &Design,
    macros: &Functions,
) -> Result<String, Fail> {
    let unknown = unknown_said(alloc, text, design, macros)?;
    let two_nets = two_nets_said(alloc, text, design, macros)?;
    let pattern = pattern_said(alloc, text, design, macros)?;
    let tops = tops_said(alloc, text, design)?;
    Ok(format!(in alloc; "{unknown}{two_nets}{pattern}{tops}")?)
}

/// What is wrong with the pins of a design.
fn said(alloc: Global, text: &str, macros: &Functions) -> Result<String, Fail> {
    let text = text.as_bytes();
    if 10_000 < text.len() {
        return Err("a text that is too long".into());
    }
    let design = read_def(alloc, text)?;
    faults_said(alloc, text, &design, macros)
}

/// The text of the design of a case.
fn text_of(alloc: Global, case: &Case) -> Result<String, Fail> {
    let [before, special, nets, behind, _] = case;
    Ok(format!(in alloc;
        "UNITS DISTANCE MICRONS 1 ; COMPONENTS 1 ; - u1 INV ; END COMPONENTS {before} \
         SPECIALNETS 1 ; {special} END SPECIALNETS NETS 1 ; {nets} END NETS {behind} END DESIGN"
    )?)
}

fn check(alloc: Global, macros: &Functions, case: &Case) -> Result<(), Fail> {
    let text = text_of(alloc, case)?;
    let found = said(alloc, text.as_str(), macros)?;
    agree(found.as_str(), case[4], text.as_str())
}

fn check_cases(alloc: Global, macros: &Functions) -> Result<(), Fail> {
    for case in &CASES {
        check(alloc, macros, case)?;
    }
    Ok(())
}

#[test]
fn the_first_fault_of_each_kind(rt: HostRuntime) -> Result<(), Fail> {
    let macros = read_functions(rt.alloc(), FUNCTIONS.as_bytes())?;
    check_cases(rt.alloc(), &macros)
}
