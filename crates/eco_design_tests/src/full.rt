//! Designs and their netlists.

use crate::said::{agree, depth_said, nets_said};
use eco_def::read_def;
use eco_elaborate::{DesignFault, Macros, list_numbered};
use eco_func::{Functions, read_functions};
use eco_net::Netlist;
use eco_small_base::FUNCTIONS;
use std::alloc::Global;
use std::test::Fail;

/// The netlist of a design, or its fault.
pub fn listed<M: Macros>(
    alloc: Global,
    text: &str,
    macros: &M,
) -> Result<Result<Netlist, DesignFault>, Fail> {
    let text = text.as_bytes();
    if 10_000 < text.len() {
        return Err("a text that is too long".into());
    }
    let design = read_def(alloc, text)?;
    match list_numbered(alloc, text, &design, macros) {
        Ok(maker) => Ok(Ok(maker.finish(alloc)?)),
        Err(fault) => Ok(Err(fault)),
    }
}

/// The nets of a netlist and its depth.
fn netlist_said(alloc: Global, netlist: &Netlist) -> Result<String, Fail> {
    let nets = nets_said(alloc, netlist)?;
    let depth = depth_said(alloc, netlist)?;
    Ok(format!(in alloc; "{nets}{depth}")?)
}

/// The nets of the netlist and its depth, or the fault.
fn said(alloc: Global, text: &str, functions: &Functions) -> Result<String, Fail> {
    match listed(alloc, text, functions)? {
        Ok(netlist) => netlist_said(alloc, &netlist),
        Err(fault) => Ok(format!(in alloc; "{fault}")?),
    }
}

const TEXT: &str = "UNITS DISTANCE MICRONS 1000 ;
COMPONENTS 3 ;
- u1 NAND2 + PLACED ( 1000 1000 ) N ;
- u2 INV + PLACED ( 3000 1000 ) N ;
- SP_1 NAND2 + FIXED ( 2000 2000 ) N ;
END COMPONENTS
PINS 3 ;
- a + NET a + DIRECTION INPUT ;
- q + NET q + DIRECTION OUTPUT ;
- vdd + NET VDD + DIRECTION INOUT + USE POWER ;
END PINS
SPECIALNETS 2 ;
- VDD ( * VDD ) + USE POWER ;
- VSS ( SP_1 A ) + USE GROUND ;
END SPECIALNETS
NETS 5 ;
- VSS ( SP_1 B ) ;
- a ( PIN a ) ( u1 A ) ( u1 A ) ;
- b ( u1 B ) ;
- n1 ( u1 Y ) ( u2 A ) ;
- n2 ( u2 Y ) ;
END NETS
END DESIGN
";

const NETS: &str = "VDD supply=1
VSS supply=0 -> SP_1/A SP_1/B
a PIN/a -> u1/A
b -> u1/B
n1 u1/Y -> u2/A
n2 u2/Y
q -> PIN/q
depth=2";

/// Components, statements in SPECIALNETS, statements in NETS, and the nets with the depth, or the fault.
const CASES: [[&str; 4]; 13] = [
    [
        "- u1 INV ;",
        "",
        "- a ( u1 A ) ( u1 A ) ;",
        "a -> u1/A\ndepth=1",
    ],
    [
        "- u1 INV ;",
        "- a + USE POWER ;",
        "- a ( u1 A ) + USE POWER ;",
        "a supply=1 -> u1/A\ndepth=1",
    ],
    [
        "- u1 INV ;",
        "- a ( u1 A ) ;",
        "- a ( u1 A ) + USE CLOCK ;",
        "a -> u1/A\ndepth=1",
    ],
    ["- u1 NOR2 ;", "", "- a ;", "UnknownMacro"],
    ["- u1 NOR2 ;", "", "- a ( u9 A ) ;", "UnknownMacro"],
    ["- u1 INV ;", "", "- a ( u9 A ) ;", "UnknownPin"],
    ["- u1 INV ;", "", "- a ( u1 B ) ;", "UnknownPin"],
    ["- u1 INV ;", "- a ( u1 B ) ;", "", "UnknownPin"],
    [
        "- u1 INV ;",
        "",
        "- a ( u1 A ) ; - b ( u1 A ) ; - c ( u9 A ) ;",
        "UnknownPin",
    ],
    [
        "- u1 INV ;",
        "",
        "- a ( u1 A ) ; - b ( u1 A ) ;",
        "PinNetDiffers",
    ],
    [
        "- u1 INV ;",
        "- a ( u1 A ) ;",
        "- b ( u1 A ) ;",
        "PinNetDiffers",
    ],
    [
        "- u1 INV ;",
        "- a + USE POWER ;",
        "- a + USE GROUND ;",
        "SupplyDiffers",
    ],
    // two inverters in a ring
    [
        "- u1 INV ; - u2 INV ;",
        "",
        "- y ( u1 Y ) ( u2 A ) ; - x ( u1 A ) ( u2 Y ) ;",
        "y u1/Y -> u2/A\nx u2/Y -> u1/A\nLoop nets=x,y",
    ],
];

/// The text of a design of a case.
fn text_of(alloc: Global, case: &[&str; 4]) -> Result<String, Fail> {
    let [comps, special, nets, _] = case;
    Ok(format!(in alloc;
        "UNITS DISTANCE MICRONS 1 ; COMPONENTS 1 ; {comps} END COMPONENTS \
         SPECIALNETS 1 ; {special} END SPECIALNETS NETS 1 ; {nets} END NETS END DESIGN"
    )?)
}

fn check(alloc: Global, functions: &Functions, text: &str, wanted: &str) -> Result<(), Fail> {
    agree(said(alloc, text, functions)?.as_str(), wanted, text)
}

fn check_cases(alloc: Global, functions: &Functions) -> Result<(), Fail> {
    check(alloc, functions, TEXT, NETS)?;
    for case in &CASES {
        check(alloc, functions, text_of(alloc, case)?.as_str(), case[3])?;
    }
    Ok(())
}

#[test]
fn designs_and_their_netlists(rt: HostRuntime) -> Result<(), Fail> {
    let functions = read_functions(rt.alloc(), FUNCTIONS.as_bytes())?;
    check_cases(rt.alloc(), &functions)
}
