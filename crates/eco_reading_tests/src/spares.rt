//! Desk files.

use crate::line::push_bytes;
use eco_common::Name;
use eco_desk_file::{DeskFile, read_desk};
use std::alloc::Global;
use std::test::Fail;

/// Puts names behind a line.
fn push_names(line: &mut String, names: &[Name]) -> Result<(), Fail> {
    for name in names {
        line.push_str(" ")?;
        push_bytes(line, name.bytes())?;
    }
    Ok(())
}

/// Puts a desk file behind a line: the high and the low net, and the prefixes.
fn push_desk(line: &mut String, desk: &DeskFile) -> Result<(), Fail> {
    push_bytes(line, desk.high().bytes())?;
    line.push_str(" ")?;
    push_bytes(line, desk.low().bytes())?;
    push_names(line, desk.prefixes())
}

/// What a text is read as: a desk file, or its fault.
fn told(alloc: Global, text: &[u8]) -> Result<String, Fail> {
    let mut line = String::new(alloc);
    match read_desk(alloc, text) {
        Ok(desk) => push_desk(&mut line, &desk)?,
        Err(fault) => write!(line, "{fault}")?,
    }
    Ok(line)
}

const SMALL: &str = "tie_high = \"VDD\"\ntie_low = \"VSS\"\nspares = [\"SP_\", \"EC\"]\n";

#[test]
fn a_small_desk_file(rt: HostRuntime) -> Result<(), Fail> {
    assert_eq!(rt;
        told(rt.alloc(), SMALL.as_bytes())?.as_str(),
        "VDD VSS SP_ EC"
    );
    assert_eq!(rt; told(rt.alloc(), b"\xff")?.as_str(), "Desk field=file");
    Ok(())
}

/// Texts, and their first faults as they are printed.
const FAULTS: [(&str, &str); 13] = [
    ("tie_high = ", "Desk field=file"),
    (
        "tie_low = \"VSS\"\nspares = [\"SP_\"]",
        "Desk field=tie_high",
    ),
    (
        "tie_high = 1\ntie_low = \"VSS\"\nspares = [\"SP_\"]",
        "Desk field=tie_high",
    ),
    (
        "tie_high = \"\"\ntie_low = 1\nspares = []",
        "Desk field=tie_high",
    ),
    (
        "tie_high = \"VDD\"\nspares = [\"SP_\"]",
        "Desk field=tie_low",
    ),
    (
        "tie_high = \"VDD\"\ntie_low = \"V S\"\nspares = []",
        "Desk field=tie_low",
    ),
    (
        "tie_high = \"VDD\"\ntie_low = \"VDD\"\nspares = [\"SP_\"]",
        "Desk field=tie_low",
    ),
    ("tie_high = \"VDD\"\ntie_low = \"VSS\"", "Desk field=spares"),
    (
        "tie_high = \"VDD\"\ntie_low = \"VSS\"\nspares = \"SP_\"",
        "Desk field=spares",
    ),
    (
        "tie_high = \"VDD\"\ntie_low = \"VSS\"\nspares = [1]",
        "Desk field=spares",
    ),
    (
        "tie_high = \"VDD\"\ntie_low = \"VSS\"\nspares = []\nmore = 1",
        "Desk field=spares",
    ),
    (
        "tie_high = \"VDD\"\ntie_low = \"VSS\"\nspares = [\"SP_\", \"\"]",
        "Desk field=spares",
    ),
    (
        "tie_high = \"VDD\"\ntie_low = \"VSS\"\nspares = [\"SP_\"]\nmore = 1\nless = 1",
        "Desk field=less",
    ),
];

#[test]
fn the_first_field_at_fault(rt: HostRuntime) -> Result<(), Fail> {
    for (text, wanted) in FAULTS {
        assert_eq!(rt;
            told(rt.alloc(), text.as_bytes())?.as_str(),
            wanted,
            "{text}"
        );
    }
    Ok(())
}

/// Whether a component of this name is spare-named by the small desk file.
fn is_spare(alloc: Global, name: &str) -> Result<bool, Fail> {
    let desk = read_desk(alloc, SMALL.as_bytes())?;
    Ok(desk.is_spare(name.as_bytes()))
}

/// Names, and whether they begin as those of spares do.
const NAMES: [(&str, bool); 6] = [
    ("SP_1", true),
    ("SP_", true),
    ("EC7", true),
    ("SP", false),
    ("U_SP_1", false),
    ("", false),
];

#[test]
fn names_of_spares(rt: HostRuntime) -> Result<(), Fail> {
    for (name, wanted) in NAMES {
        assert_eq!(rt; is_spare(rt.alloc(), name)?, wanted, "{name}");
    }
    Ok(())
}
