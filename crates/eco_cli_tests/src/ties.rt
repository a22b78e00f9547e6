//! A base whose tie nets are driven by tie cells.

use crate::answer::edited_by;
use std::process::Abort;
use std::test::Fail;

const CHECK: &str = "check --lef l --def d --functions f --desk k";

/// The small base, with the spares tied to what two tie cells drive, and room for one edit more.
const TIED: [(&str, &str); 8] = [
    (
        "END LIBRARY",
        "MACRO TIEH
  PIN Y DIRECTION OUTPUT ; USE SIGNAL ; END Y
END TIEH
MACRO TIEL
  PIN Y DIRECTION OUTPUT ; USE SIGNAL ; END Y
END TIEL
END LIBRARY",
    ),
    (
        "[INV]",
        "[TIEH]
inputs = []
outputs = { Y = \"1\" }

[TIEL]
inputs = []
outputs = { Y = \"0\" }

[INV]",
    ),
    ("tie_high = \"VDD\"", "tie_high = \"high\""),
    ("tie_low = \"VSS\"", "tie_low = \"low\""),
    (
        "COMPONENTS 7 ;",
        "COMPONENTS 9 ;
- t1 TIEH + PLACED ( 0 0 ) N ;
- t0 TIEL + PLACED ( 0 2000 ) N ;",
    ),
    (
        "( SP_1 A ) ( SP_1 B ) ( SP_2 A ) ( SP_2 B ) ( SP_3 A ) ( SP_3 B ) ( SP_3 C ) + USE GROUND ;",
        "+ USE GROUND ;",
    ),
    (
        "NETS 6 ;",
        "NETS 8 ;
- high ( t1 Y ) ( SP_1 A ) ;
- low ( t0 Y ) ( SP_1 B ) ( SP_2 A ) ( SP_2 B ) ( SP_3 A ) ( SP_3 B ) ( SP_3 C ) ;",
    ),
    ("", ""),
];

/// What stands in its texts and in the line, what stands in its place, and the answer.
const BASES: [(&str, &str, &str); 7] = [
    (
        "",
        "",
        "0 components 9\ngates 8\nboxes 1\nnets 10\npins 21\nstock 3\nlevels 2\nskipped 1\n",
    ),
    // both tables are turned: the higher is looked at first
    (
        "outputs = { Y = \"1\" }\n\n[TIEL]\ninputs = []\noutputs = { Y = \"0\" }",
        "outputs = { Y = \"0\" }\n\n[TIEL]\ninputs = []\noutputs = { Y = \"1\" }",
        "1 eco: base TieNotConstant net=high\n",
    ),
    (
        "t1 TIEH",
        "t1 TIEL",
        "1 eco: base TieNotConstant net=high\n",
    ),
    ("t0 TIEL", "t0 TIEH", "1 eco: base TieNotConstant net=low\n"),
    // no pin drives it, and two do
    ("( t0 Y ) ", "", "1 eco: base TieNotConstant net=low\n"),
    (
        "- low ( t0 Y )",
        "- low ( t0 Y ) ( SP_4 Y )",
        "1 eco: base TieNotConstant net=low\n",
    ),
    // a tie cell that is named like a spare
    ("t0 ", "SP_0 ", "1 eco: base TieNotConstant net=low\n"),
];

#[test]
fn tie_cells_drive_the_tie_nets(rt: HostRuntime) -> Result<(), Fail> {
    for (old, new, wanted) in BASES {
        let mut edits = TIED;
        edits[7] = (old, new);
        let said = edited_by(rt.alloc(), CHECK, &edits)?;
        assert_eq!(rt; said.as_str(), wanted, "{new}");
    }
    Ok(())
}
