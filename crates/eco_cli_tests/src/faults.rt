//! Texts that are refused: each form of a fault is printed with its fields.

use crate::answer::{beside, edited};
use std::process::Abort;
use std::test::Fail;

const MOVE: &str = "move --def x --comp r1 --pin D --from n2 --to n1 --out o";

/// Texts of a DEF, and the answers.
const OF_A_DEF: [(&str, &str); 11] = [
    ("", "1 eco: def Unended place=0\n"),
    ("DESIGN top ;", "1 eco: def Unended place=12\n"),
    ("DESIGN \"top ;", "1 eco: def Text OpenQuote place=7\n"),
    ("EXTRA 1 ;", "1 eco: def UnknownHeading place=0\n"),
    (
        "UNITS DISTANCE MICRONS 0 ;",
        "1 eco: def BadStatement place=23\n",
    ),
    (
        "COMPONENTS 2 ; - u INV ; - u",
        "1 eco: def TwiceNamed place=27\n",
    ),
    ("NETS 0 ; END NETS NETS", "1 eco: def TwiceNamed place=18\n"),
    ("NETS 1 ; - MUSTJOIN ;", "1 eco: def MustJoin place=11\n"),
    ("END DESIGN", "1 eco: def Missing which=UNITS\n"),
    (
        "UNITS DISTANCE MICRONS 1 ; NETS 0 ; END NETS END DESIGN",
        "1 eco: def Missing which=COMPONENTS\n",
    ),
    (
        "UNITS DISTANCE MICRONS 1 ; COMPONENTS 0 ; END COMPONENTS END DESIGN",
        "1 eco: def Missing which=NETS\n",
    ),
];

#[test]
fn faults_of_a_def(rt: HostRuntime) -> Result<(), Fail> {
    for (text, wanted) in OF_A_DEF {
        let said = beside(rt.alloc(), MOVE, text)?;
        assert_eq!(rt; said.as_str(), wanted, "{text}");
    }
    Ok(())
}

const LEF: &str = "check --lef x --def d --functions f --desk k";

const DEF: &str = "check --lef l --def x --functions f --desk k";

const FUNCTIONS: &str = "check --lef l --def d --functions x --desk k";

const DESK: &str = "check --lef l --def d --functions f --desk x";

/// Lines of a base, the text x in them, and the answers.
const OF_A_FILE: [(&str, &str, &str); 25] = [
    (LEF, "END \"", "1 eco: base Lef Text OpenQuote place=4\n"),
    (LEF, "MACRO INV", "1 eco: base Lef Unended name=INV\n"),
    (
        LEF,
        "MACRO A END A MACRO A",
        "1 eco: base Lef TwiceNamed place=20\n",
    ),
    (
        LEF,
        "MACRO A END A ARRAY x",
        "1 eco: base Lef ArrayBlock place=14\n",
    ),
    (
        LEF,
        "MACRO A SIZE x BY 1 ;",
        "1 eco: base Lef BadStatement place=13\n",
    ),
    (LEF, "", "1 eco: base UnknownMaster comp=u1\n"),
    (DEF, "", "1 eco: base Def Unended place=0\n"),
    (
        DEF,
        "VERSION \"",
        "1 eco: base Def Text OpenQuote place=8\n",
    ),
    (DEF, "EXTRA 1 ;", "1 eco: base Def UnknownHeading place=0\n"),
    (
        DEF,
        "UNITS DISTANCE MICRONS 0 ;",
        "1 eco: base Def BadStatement place=23\n",
    ),
    (
        DEF,
        "NETS 0 ; END NETS NETS",
        "1 eco: base Def TwiceNamed place=18\n",
    ),
    (
        DEF,
        "NETS 1 ; - MUSTJOIN ;",
        "1 eco: base Def MustJoin place=11\n",
    ),
    (DEF, "END DESIGN", "1 eco: base Def Missing which=UNITS\n"),
    (FUNCTIONS, "[A", "1 eco: base Func BadToml\n"),
    (
        FUNCTIONS,
        "[A]\ninputs = []",
        "1 eco: base Func BadField master=A field=outputs\n",
    ),
    (
        FUNCTIONS,
        "[A]\ninputs = [\"B\", \"C\", \"D\", \"E\", \"F\", \"G\", \"H\"]\noutputs = {}",
        "1 eco: base Func TooManyInputs master=A\n",
    ),
    (
        FUNCTIONS,
        "[A]\ninputs = [\"B\", \"C\"]\noutputs = { Y = \"111\" }",
        "1 eco: base Func BadTable master=A output=Y\n",
    ),
    (
        FUNCTIONS,
        "[A]\ninputs = [\"B\"]\noutputs = { Y = \"B\", Z = \"B C\", X = \"B |\" }",
        "1 eco: base Func BadExpression master=A output=X place=3\n",
    ),
    (
        FUNCTIONS,
        "[A]\ninputs = [\"B\"]\noutputs = { Y = \"B & D & C\" }",
        "1 eco: base Func UnknownInput master=A output=Y input=D\n",
    ),
    (DESK, "tie_high = ", "1 eco: base Desk field=file\n"),
    (DESK, "", "1 eco: base Desk field=tie_high\n"),
    (
        DESK,
        "tie_high = \"VDD\"\ntie_low = \"VDD\"\nspares = [\"SP_\"]",
        "1 eco: base Desk field=tie_low\n",
    ),
    (
        DESK,
        "tie_high = \"VDD\"\ntie_low = \"VSS\"\nspares = []",
        "1 eco: base Desk field=spares\n",
    ),
    (
        DESK,
        "tie_high = \"VDD\"\ntie_low = \"VSS\"\nspares = [\"SP_\"]\nmore = 1\nless = 1",
        "1 eco: base Desk field=less\n",
    ),
    // all inputs are read before one is refused: x is laid ready once
    (
        "check --lef x --def x --functions f --desk k",
        "END \"",
        "3 eco: read fault\n",
    ),
];

#[test]
fn faults_of_the_files_of_a_base(rt: HostRuntime) -> Result<(), Fail> {
    for (line, text, wanted) in OF_A_FILE {
        let said = beside(rt.alloc(), line, text)?;
        assert_eq!(rt; said.as_str(), wanted, "{text}");
    }
    Ok(())
}

const CHECK: &str = "check --lef l --def d --functions f --desk k";

/// What stands in the texts of the small base, what stands in its place, and the answer.
const OF_A_BASE: [(&str, &str, &str); 13] = [
    (
        "DIEAREA ( 0 0 ) ( 20000 20000 ) ;",
        "DIEAREA ( 0 0 ) ( 20000 20000 ) ;
# written by hand
ROW r0 core 0 0 N DO 100 BY 1 STEP 200 0 ;
TRACKS X 100 DO 100 STEP 200 LAYER M1 ;
VIAS 1 ;
- v1 + RECT M1 ( -50 -50 ) ( 50 50 ) + RECT M2 ( -50 -50 ) ( 50 50 ) ;
END VIAS
BEGINEXT \"note\"
  any words
ENDEXT",
        "0 components 7\ngates 6\nboxes 1\nnets 8\npins 19\nstock 3\nlevels 2\nskipped 1\n",
    ),
    (
        "FIXED ( 2000 2000 ) N",
        "FIXED ( 2000 2000 ) N + PROPERTY note \"a ; b\"",
        "0 components 7\ngates 6\nboxes 1\nnets 8\npins 19\nstock 3\nlevels 2\nskipped 1\n",
    ),
    // the LEF and the DEF are both at fault
    (
        "VERSION 5.8 ;",
        "EXTRA \"",
        "1 eco: base Lef Text OpenQuote place=6\n",
    ),
    ("u2 INV", "u2 BUF", "1 eco: base UnknownMaster comp=u2\n"),
    (
        "inputs = [\"A\"]",
        "inputs = [\"B\"]",
        "1 eco: base FunctionPins master=INV pin=A\n",
    ),
    (
        "( r1 D )",
        "( r1 Z )",
        "1 eco: base UnknownPin net=n2 place=944\n",
    ),
    (
        "( r1 D )",
        "( r1 D ) ( u1 A )",
        "1 eco: base PinNetDiffers pin=u1/A first=a second=n2\n",
    ),
    (
        "( * VSS )",
        "( * A )",
        "1 eco: base PatternOnSignal net=VSS pin=A\n",
    ),
    (
        "NETS 6 ;",
        "NETS 7 ;
- VDD + USE GROUND ;",
        "1 eco: base SupplyDiffers net=VDD\n",
    ),
    (
        "tie_high = \"VDD\"",
        "tie_high = \"a\"",
        "1 eco: base TieNotConstant net=a\n",
    ),
    (
        " ( u1 B ) ;
- ck ( PIN ck ) ( r1 CK ) ;
- n1 ( u1 Y ) ( u2 A ) + ROUTED M1 ( 1000 1000 ) ( 3000 * ) ;
- n2 ( u2 Y )",
        " ;
- ck ( PIN ck ) ( r1 CK ) ;
- n1 ( u1 Y ) ( u2 A ) ;
- n2 ( u2 Y ) ( u1 B )",
        "1 eco: base Loop nets=n1,n2\n",
    ),
    (
        "| C)",
        "|",
        "1 eco: base Func BadExpression master=AOI21 output=Y place=11\n",
    ),
    (
        "\"10\"",
        "\"101\"",
        "1 eco: base Func BadTable master=INV output=Y\n",
    ),
];

#[test]
fn the_first_fault_of_a_base(rt: HostRuntime) -> Result<(), Fail> {
    for (old, new, wanted) in OF_A_BASE {
        let said = edited(rt.alloc(), CHECK, old, new)?;
        assert_eq!(rt; said.as_str(), wanted, "{new}");
    }
    Ok(())
}
