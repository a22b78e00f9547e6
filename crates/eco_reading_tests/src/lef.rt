//! LEF libraries.

use crate::line::push_bytes;
use eco_common::Dir;
use eco_lef::{LefFault, Library, Master, read_lef};
use eco_small_base::LEF;
use std::alloc::Global;
use std::test::Fail;

const SMALL: &str =
    "INV 400000x2000000 <A >Y +VDD +VSS;NAND2 600000x2000000 <A <B >Y +VDD +VSS;AOI21 800000x2000000 <A <B <C >Y +VDD +VSS;DFF 1600000x2000000 <D <CK >Q +VDD +VSS;";

/// A master in one line: `<` stands before an input, `>` before an output, `-` before an inout, `+` before a supply.
fn push_master(line: &mut String, master: &Master) -> Result<(), Fail> {
    push_bytes(line, master.name.bytes())?;
    write!(line, " {}x{}", master.width, master.height)?;
    for pin in master.pins.as_slice() {
        let mark = match pin.dir {
            _ if pin.supply => " +",
            Dir::Input => " <",
            Dir::Output => " >",
            Dir::Inout => " -",
        };
        line.push_str(mark)?;
        push_bytes(line, pin.name.bytes())?;
    }
    line.push(';')?;
    Ok(())
}

fn push_library(line: &mut String, library: &Library) -> Result<(), Fail> {
    for master in library.masters() {
        push_master(line, master)?;
    }
    Ok(())
}

/// The library of a text. None of these texts is so long that it may not be read.
fn read(alloc: Global, text: &str) -> Result<Library, LefFault> {
    if 67_108_864 < text.len() {
        return Err(LefFault::Memory);
    }
    read_lef(alloc, text.as_bytes())
}

/// What a text is read as: its masters, or its fault.
fn told(alloc: Global, text: &str) -> Result<String, Fail> {
    let mut line = String::new(alloc);
    match read(alloc, text) {
        Ok(library) => push_library(&mut line, &library)?,
        Err(fault) => write!(line, "{fault}")?,
    }
    Ok(line)
}

/// What stands in the LEF of the small base, and what stands in its place: its inverter as the library of a tool writes
/// it, another head, and no end.
const VARIANTS: [(&str, &str); 4] = [
    ("", ""),
    (
        "  SIZE 0.4 BY 2 ;
  PIN A DIRECTION INPUT ; USE SIGNAL ; END A
",
        "  CLASS CORE ;
  ORIGIN 0 0 ;
  SIZE 0.4 BY 2 ;
  PIN A
    DIRECTION INPUT ;
    USE SIGNAL ;
    PORT
      LAYER M1 ;
      RECT 0.1 0.1 0.2 0.2 ;
    END
  END A
",
    ),
    ("VERSION 5.8 ;\n", "VERSION 5.8 ;\nNOTE x ; END NOTE\n"),
    ("END LIBRARY\n", ""),
];

#[test]
fn the_library_of_the_small_base(rt: HostRuntime) -> Result<(), Fail> {
    let alloc = rt.alloc();
    for (old, new) in VARIANTS {
        let text = LEF.replace(alloc, old, new)?;
        assert_eq!(rt; told(alloc, text.as_str())?.as_str(), SMALL, "{new}");
    }
    Ok(())
}

const THREE: &str =
    "MACRO b SIZE 1 BY 1 ; END b MACRO a SIZE 2 BY 1 ; END a MACRO c SIZE 3 BY 1 ; END c";

/// The place and the width of the master of a name.
fn found(library: &Library, name: &str) -> Option<(usize, u64)> {
    let place = library.place(name.as_bytes())?;
    let master = library.find(name.as_bytes())?;
    Some((place, master.width))
}

/// Names, and the places and widths of the masters that have them.
const FOUND: [(&str, Option<(usize, u64)>); 5] = [
    ("a", Some((1, 2_000_000))),
    ("b", Some((0, 1_000_000))),
    ("c", Some((2, 3_000_000))),
    ("d", None),
    ("", None),
];

#[test]
fn masters_are_found_by_name(rt: HostRuntime) -> Result<(), Fail> {
    let library = read(rt.alloc(), THREE)?;
    for (name, wanted) in FOUND {
        assert_eq!(rt; found(&library, name), wanted, "{name}");
    }
    Ok(())
}

/// Texts, and the masters that they are read as.
const READ: [(&str, &str); 28] = [
    ("", ""),
    ("END LIBRARY MACRO A END A \"", ""),
    ("MACRO A END A # END LIBRARY\nMACRO B END B", "A 0x0;B 0x0;"),
    (
        "MACRO A\r\nSIZE 4.800 BY 20.000 ;\r\nEND A\r\n",
        "A 4800000x20000000;",
    ),
    (
        "MACRO A SIZE 1 BY 2 ; SIZE 3 BY 4 ; END A",
        "A 1000000x2000000;",
    ),
    (
        "USEMINSPACING OBS ON ; CLEARANCEMEASURE EUCLIDEAN ; MANUFACTURINGGRID 0.005 ; MACRO A END A",
        "A 0x0;",
    ),
    (
        "LAYER M1 TYPE ROUTING ; SPACING 0.1 ; MACRO X END M1 MACRO A END A",
        "A 0x0;",
    ),
    (
        "VIA v DEFAULT LAYER M1 ; END v VIARULE r GENERATE LAYER M1 ; END r MACRO A END A",
        "A 0x0;",
    ),
    (
        "SITE core CLASS CORE ; END core NONDEFAULTRULE n END n MACRO A END A",
        "A 0x0;",
    ),
    (
        "UNITS DATABASE MICRONS 1000 ; END UNITS PROPERTYDEFINITIONS MACRO m REAL ; END PROPERTYDEFINITIONS",
        "",
    ),
    (
        "SPACING SAMENET M1 M1 0.1 ; END END SPACING MACRO A END A",
        "A 0x0;",
    ),
    (
        "BEGINEXT \"note\" MACRO X END X ENDEXT MACRO A END A",
        "A 0x0;",
    ),
    ("END END LIBRARY ; MACRO A END A", "A 0x0;"),
    ("; ; MACRO A ; ; PIN P ; ; END P END A", "A 0x0 -P;"),
    (
        "MACRO A OBS LAYER M1 ; RECT 0 0 1 1 ; END DENSITY LAYER M1 ; END END A",
        "A 0x0;",
    ),
    ("MACRO A END B SIZE 1 BY 1 ; END A", "A 1000000x1000000;"),
    (
        "MACRO A PIN P END A DIRECTION INPUT ; END P END A",
        "A 0x0 <P;",
    ),
    (
        "MACRO A PIN P DIRECTION OUTPUT TRISTATE ; END P END A",
        "A 0x0 >P;",
    ),
    (
        "MACRO A PIN P DIRECTION FEEDTHRU ; END P END A",
        "A 0x0 -P;",
    ),
    (
        "MACRO A PIN P DIRECTION INPUT ; DIRECTION OUTPUT ; END P END A",
        "A 0x0 <P;",
    ),
    (
        "MACRO A PIN P USE SIGNAL ; USE POWER ; END P END A",
        "A 0x0 -P;",
    ),
    (
        "MACRO A PIN P USE POWER x ; USE GROUND ; END P END A",
        "A 0x0 -P;",
    ),
    (
        "MACRO A PIN P USE ; END P PIN Q USE GROUND ; END Q END A",
        "A 0x0 -P +Q;",
    ),
    (
        "MACRO A PIN P MUSTJOIN Q ; PORT DIRECTION x END END P END A",
        "A 0x0 -P;",
    ),
    (
        "MACRO u1\\[0\\] PIN a[1] END a[1] END u1\\[0\\]",
        "u1\\[0\\] 0x0 -a[1];",
    ),
    (
        "MACRO A PIN P END P END A MACRO B PIN P END P END B",
        "A 0x0 -P;B 0x0 -P;",
    ),
    (
        "LAYER M1\n  TYPE ROUTING ;\n  SPACING 0.1 ;\nEND M1\n\nMACRO n$1<2>\n  PIN q\\[0\\]  \n    DIRECTION OUTPUT TRISTATE  ;\n    USE SIGNAL\n    ;\n  END q\\[0\\]\n  OBS\n    LAYER M1\n    ;\n  END\nEND n$1<2>\n",
        "n$1<2> 0x0 >q\\[0\\];",
    ),
    (
        "MACRO A PIN P END P SIZE 1 BY 1 ; END A",
        "A 1000000x1000000 -P;",
    ),
];

#[test]
fn statements_and_blocks_of_all_kinds(rt: HostRuntime) -> Result<(), Fail> {
    for (text, wanted) in READ {
        assert_eq!(rt; told(rt.alloc(), text)?.as_str(), wanted, "{text}");
    }
    Ok(())
}

/// Texts, and their first faults as they are printed.
const FAULTS: [(&str, &str); 34] = [
    ("MACRO A \"b", "Text OpenQuote place=8"),
    ("END \"", "Text OpenQuote place=4"),
    ("VERSION 5.8", "Unended name=VERSION"),
    ("\"a b\" c", "Unended name=\"a b\""),
    ("MACRO", "Unended name=MACRO"),
    ("LAYER", "Unended name=LAYER"),
    ("LAYER M1 END M2", "Unended name=M1"),
    ("UNITS DATABASE MICRONS 1000 ; END", "Unended name=UNITS"),
    ("BEGINEXT \"note\" ENDEX", "Unended name=BEGINEXT"),
    ("MACRO INV", "Unended name=INV"),
    ("MACRO INV SIZE 1 BY", "Unended name=INV"),
    ("MACRO INV OBS LAYER M1 ;", "Unended name=INV"),
    ("MACRO INV PIN", "Unended name=INV"),
    ("MACRO INV PIN A", "Unended name=A"),
    ("MACRO INV PIN A DIRECTION INPUT", "Unended name=A"),
    ("MACRO INV PIN A USE POWER", "Unended name=A"),
    ("MACRO INV PIN A PORT LAYER M1 ;", "Unended name=A"),
    ("MACRO INV PIN A END A", "Unended name=INV"),
    ("MACRO INV END", "Unended name=INV"),
    ("MACRO A END A MACRO A", "TwiceNamed place=20"),
    ("MACRO A PIN P END P PIN P", "TwiceNamed place=24"),
    ("MACRO A END A ARRAY x", "ArrayBlock place=14"),
    ("MACRO ;", "BadStatement place=6"),
    ("MACRO \"A\"", "BadStatement place=6"),
    ("VIA ; ", "BadStatement place=4"),
    ("MACRO A PIN (", "BadStatement place=12"),
    ("MACRO A SIZE x BY 1 ;", "BadStatement place=13"),
    ("MACRO A SIZE 1 1 ;", "BadStatement place=15"),
    ("MACRO A SIZE 1 BY 10000.1 ;", "BadStatement place=18"),
    ("MACRO A SIZE 1 BY 1 SYMMETRY", "BadStatement place=20"),
    ("MACRO A SIZE 1 BY 1 ; SIZE 1 BY ;", "BadStatement place=32"),
    ("MACRO A PIN P DIRECTION UP ;", "BadStatement place=24"),
    (
        "MACRO A PIN P DIRECTION INPUT TRISTATE ;",
        "BadStatement place=30",
    ),
    (
        "MACRO A PIN P DIRECTION INPUT ; DIRECTION ;",
        "BadStatement place=42",
    ),
];

#[test]
fn the_first_fault_of_a_text(rt: HostRuntime) -> Result<(), Fail> {
    for (text, wanted) in FAULTS {
        assert_eq!(rt; told(rt.alloc(), text)?.as_str(), wanted, "{text}");
    }
    Ok(())
}

/// A text of so many empty macros, named by numbers.
fn macros(alloc: Global, count: u32) -> Result<String, Fail> {
    let mut text = String::new(alloc);
    for number in 0..count {
        write!(text, "MACRO m{number} END m{number}\n")?;
    }
    Ok(text)
}

/// What stands behind 16,384 macros, and the fault at its name.
const ONE_MORE: [(&str, &str); 2] = [
    ("MACRO m7", "TwiceNamed"),
    ("MACRO m16384 END m16384\n", "TooManyMasters"),
];

#[test]
fn a_library_has_at_most_16384_masters(rt: HostRuntime) -> Result<(), Fail> {
    let alloc = rt.alloc();
    let text = macros(alloc, 16_384)?;
    let library = read(alloc, text.as_str())?;
    assert_eq!(rt; found(&library, "m16383"), Some((16_383, 0)));
    let place = text.len().saturating_add(6);
    for (more, fault) in ONE_MORE {
        let longer = format!(in alloc; "{text}{more}")?;
        let wanted = format!(in alloc; "{fault} place={place}")?;
        assert_eq!(rt; told(alloc, longer.as_str())?, wanted);
    }
    Ok(())
}
