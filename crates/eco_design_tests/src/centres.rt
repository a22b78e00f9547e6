//! Where components have their centres.

use crate::net::{library, listed_by};
use crate::said::agree;
use eco_func::{Functions, read_functions};
use eco_net::{CompId, Netlist};
use eco_small_base::FUNCTIONS;
use std::alloc::Global;
use std::test::Fail;

/// Database units per micron, a macro's statements, how its component is placed, and the doubled centre.
const CASES: [[&str; 4]; 13] = [
    [
        "1000",
        "SIZE 0.6 BY 2 ;",
        "+ PLACED ( 1000 1000 ) N",
        "2600 4000",
    ],
    [
        "1000",
        "SIZE 0.6 BY 2 ;",
        "+ PLACED ( 1000 1000 ) S",
        "2600 4000",
    ],
    [
        "1000",
        "SIZE 0.6 BY 2 ;",
        "+ PLACED ( 1000 1000 ) FN",
        "2600 4000",
    ],
    [
        "1000",
        "SIZE 0.6 BY 2 ;",
        "+ PLACED ( 1000 1000 ) FS",
        "2600 4000",
    ],
    [
        "1000",
        "SIZE 0.6 BY 2 ;",
        "+ PLACED ( 1000 1000 ) E",
        "4000 2600",
    ],
    [
        "1000",
        "SIZE 0.6 BY 2 ;",
        "+ PLACED ( 1000 1000 ) W",
        "4000 2600",
    ],
    [
        "1000",
        "SIZE 0.6 BY 2 ;",
        "+ PLACED ( 1000 1000 ) FE",
        "4000 2600",
    ],
    [
        "1000",
        "SIZE 0.6 BY 2 ;",
        "+ FIXED ( 1000 1000 ) FW",
        "4000 2600",
    ],
    // what is less than a database unit is dropped
    [
        "1000",
        "SIZE 0.0019 BY 0.001 ;",
        "+ PLACED ( 0 -3 ) N",
        "1 -5",
    ],
    [
        "2000",
        "SIZE 0.0019 BY 0.001 ;",
        "+ PLACED ( 0 -3 ) N",
        "3 -4",
    ],
    // the least and the greatest
    [
        "1000",
        "",
        "+ PLACED ( -2147483648 -2147483648 ) FS",
        "-4294967296 -4294967296",
    ],
    [
        "1000000",
        "SIZE 10000 BY 10000 ;",
        "+ PLACED ( 2147483647 2147483647 ) N",
        "14294967294 14294967294",
    ],
    ["1000", "SIZE 0.6 BY 2 ;", "+ UNPLACED", "unplaced"],
];

/// The place of the first component.
fn first_place(alloc: Global, netlist: &Netlist) -> Result<String, Fail> {
    if netlist.counts().comps == 0 {
        return Err("no component".into());
    }
    match netlist.place_of(CompId(0)) {
        Some(point) => Ok(format!(in alloc; "{} {}", point.x, point.y)?),
        None => Ok(format!(in alloc; "unplaced")?),
    }
}

fn check(alloc: Global, functions: &Functions, case: &[&str; 4]) -> Result<(), Fail> {
    let [units, size, place, centre] = case;
    let lef = format!(in alloc; "VERSION 5.8 ; MACRO CELL {size} END CELL END LIBRARY\n")?;
    let def = format!(in alloc;
        "UNITS DISTANCE MICRONS {units} ; COMPONENTS 1 ; - u1 CELL {place} ; END COMPONENTS NETS 0 ; END NETS END DESIGN"
    )?;
    let library = library(alloc, lef.as_str())?;
    let netlist = listed_by(alloc, def.as_str(), &library, functions)?;
    agree(first_place(alloc, &netlist)?.as_str(), centre, place)
}

#[test]
fn doubled_centres(rt: HostRuntime) -> Result<(), Fail> {
    let functions = read_functions(rt.alloc(), FUNCTIONS.as_bytes())?;
    for case in &CASES {
        check(rt.alloc(), &functions, case)?;
    }
    Ok(())
}
