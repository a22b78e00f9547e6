//! Whether masters fit a design and a functions file.

use crate::said::agree;
use eco_def::read_def;
use eco_func::{Functions, read_functions};
use eco_lef::read_lef;
use eco_master_faults::check_masters;
use eco_small_base::FUNCTIONS;
use std::alloc::Global;
use std::test::Fail;

const SUPPLIES: &str = "PIN VDD DIRECTION INOUT ; USE POWER ; END VDD PIN VSS USE GROUND ; END VSS";

/// The components, the pins of NAND2 and of INV beside the supplies, in this order in the library, and the fault, or the
/// empty text. The functions file hasn't the master DFF.
type Case = (&'static str, &'static str, &'static str, &'static str);

const NAND2: &str = "PIN A DIRECTION INPUT ; END A PIN B DIRECTION INPUT ; USE SIGNAL ; END B \
                     PIN Y DIRECTION OUTPUT TRISTATE ; END Y";

const INV: &str = "PIN Y DIRECTION OUTPUT ; USE SIGNAL ; END Y PIN A DIRECTION INPUT ; END A";

const CASES: [Case; 15] = [
    ("- u1 INV ; - u2 NAND2 ; - r1 DFF ;", NAND2, INV, ""),
    ("", "", "", ""),
    // Components of unknown masters, by the order of the text and before all masters.
    (
        "- u1 INV ; - u3 ZZ ; - u2 YY ;",
        NAND2,
        INV,
        "UnknownMaster comp=u3",
    ),
    ("- u1 INV ; - u2 ZZ ;", NAND2, "", "UnknownMaster comp=u2"),
    // A listed pin that the library lacks, an input and an output.
    (
        "- u1 INV ;",
        NAND2,
        "PIN Y DIRECTION OUTPUT ; END Y",
        "FunctionPins master=INV pin=A",
    ),
    (
        "- u1 INV ;",
        NAND2,
        "PIN A DIRECTION INPUT ; END A",
        "FunctionPins master=INV pin=Y",
    ),
    // A pin that isn't listed.
    (
        "- u1 INV ;",
        NAND2,
        "PIN Y DIRECTION OUTPUT ; END Y PIN A DIRECTION INPUT ; END A PIN B DIRECTION INPUT ; END B",
        "FunctionPins master=INV pin=B",
    ),
    // A listed input that is OUTPUT, a listed output that is INOUT, and an input without a direction.
    (
        "- u1 INV ;",
        NAND2,
        "PIN A DIRECTION OUTPUT ; END A PIN Y DIRECTION OUTPUT ; END Y",
        "FunctionPins master=INV pin=A",
    ),
    (
        "- u1 INV ;",
        NAND2,
        "PIN A DIRECTION INPUT ; END A PIN Y DIRECTION INOUT ; END Y",
        "FunctionPins master=INV pin=Y",
    ),
    (
        "- u1 INV ;",
        NAND2,
        "PIN A USE SIGNAL ; END A PIN Y DIRECTION OUTPUT ; END Y",
        "FunctionPins master=INV pin=A",
    ),
    // A listed input that is supply is no input.
    (
        "- u1 INV ;",
        NAND2,
        "PIN A DIRECTION INPUT ; USE POWER ; END A PIN Y DIRECTION OUTPUT ; END Y",
        "FunctionPins master=INV pin=A",
    ),
    // The first pin by bytes, whatever stands first in the library.
    (
        "- u1 INV ;",
        NAND2,
        "PIN Z DIRECTION INPUT ; END Z PIN Y DIRECTION INPUT ; END Y PIN A DIRECTION INPUT ; END A",
        "FunctionPins master=INV pin=Y",
    ),
    // The first master by the order of the library, whatever component stands first.
    (
        "- u1 INV ; - u2 NAND2 ;",
        "PIN Y DIRECTION OUTPUT ; END Y",
        "",
        "FunctionPins master=NAND2 pin=A",
    ),
    // Masters that no component has aren't looked at.
    ("- u1 INV ;", "PIN Z DIRECTION INOUT ; END Z", INV, ""),
    ("- r1 DFF ;", "", "", ""),
];

/// The fault of the masters of these texts, or nothing.
fn said(alloc: Global, lef: &str, def: &str, functions: &Functions) -> Result<String, Fail> {
    if 10_000 < lef.len() || 10_000 < def.len() {
        return Err("a text that is too long".into());
    }
    let library = read_lef(alloc, lef.as_bytes())?;
    let design = read_def(alloc, def.as_bytes())?;
    match check_masters(alloc, def.as_bytes(), &design, &library, functions) {
        Ok(()) => Ok(String::new(alloc)),
        Err(fault) => Ok(format!(in alloc; "{fault}")?),
    }
}

/// The library of a case.
fn lef_of(alloc: Global, nand2: &str, inv: &str) -> Result<String, Fail> {
    Ok(format!(in alloc;
        "MACRO NAND2 {nand2} {SUPPLIES} END NAND2 MACRO INV {SUPPLIES} {inv} END INV \
         MACRO DFF PIN D DIRECTION INPUT ; END D PIN Q DIRECTION INOUT ; END Q {SUPPLIES} END DFF"
    )?)
}

/// The design of a case.
fn def_of(alloc: Global, comps: &str) -> Result<String, Fail> {
    Ok(format!(in alloc;
        "UNITS DISTANCE MICRONS 1 ; COMPONENTS 1 ; {comps} END COMPONENTS NETS 0 ; END NETS END DESIGN"
    )?)
}

fn check(alloc: Global, functions: &Functions, case: &Case) -> Result<(), Fail> {
    let (comps, nand2, inv, wanted) = case;
    let lef = lef_of(alloc, nand2, inv)?;
    let def = def_of(alloc, comps)?;
    let found = said(alloc, lef.as_str(), def.as_str(), functions)?;
    agree(found.as_str(), wanted, lef.as_str())
}

fn check_cases(alloc: Global, functions: &Functions) -> Result<(), Fail> {
    for case in &CASES {
        check(alloc, functions, case)?;
    }
    Ok(())
}

#[test]
fn the_first_fault_of_the_masters(rt: HostRuntime) -> Result<(), Fail> {
    let functions = read_functions(rt.alloc(), FUNCTIONS.as_bytes())?;
    check_cases(rt.alloc(), &functions)
}
