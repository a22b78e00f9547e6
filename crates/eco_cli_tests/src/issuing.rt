//! Lines that issue a DEF, and orders that are refused.

use crate::answer::edited;
use eco_small_base::DEF;
use std::process::Abort;
use std::test::Fail;

const UNMOVED: &str = "- n1 ( u1 Y ) ( u2 A ) + ROUTED M1 ( 1000 1000 ) ( 3000 * ) ;
- n2 ( u2 Y ) ( r1 D ) ;
";

const MOVED: &str = "- n1 ( u1 Y ) ( u2 A ) ( r1 D ) ;
- n2 ( u2 Y ) ;
";

const APPLY: &str =
    "apply --lef l --def d --functions f --desk k --spare SP_1 --table 10 --inputs n1 --pins 1,i0 --output m1 --comp r1 --pin D --from n2 --out o";

const NETS: &str = "- VDD ( * VDD ) + USE POWER ;
- VSS ( * VSS ) ( SP_1 A ) ( SP_1 B ) ( SP_2 A ) ( SP_2 B ) ( SP_3 A ) ( SP_3 B ) ( SP_3 C ) + USE GROUND ;
END SPECIALNETS
NETS 6 ;
- a ( PIN a ) ( u1 A ) ;
- b ( PIN b ) ( u1 B ) ;
- ck ( PIN ck ) ( r1 CK ) ;
- n1 ( u1 Y ) ( u2 A ) + ROUTED M1 ( 1000 1000 ) ( 3000 * ) ;
- n2 ( u2 Y ) ( r1 D ) ;
- q ( r1 Q ) ( PIN q ) ;
END NETS
";

/// `SP_1`, with its pin A on VDD, inverts n1 for D of r1.
const INVERTED: &str = "- VDD ( * VDD ) ( SP_1 A ) + USE POWER ;
- VSS ( * VSS ) ( SP_2 A ) ( SP_2 B ) ( SP_3 A ) ( SP_3 B ) ( SP_3 C ) + USE GROUND ;
END SPECIALNETS
NETS 7 ;
- a ( PIN a ) ( u1 A ) ;
- b ( PIN b ) ( u1 B ) ;
- ck ( PIN ck ) ( r1 CK ) ;
- n1 ( u1 Y ) ( u2 A ) ( SP_1 B ) ;
- n2 ( u2 Y ) ;
- q ( r1 Q ) ( PIN q ) ;
- m1 ( SP_1 Y ) ( r1 D ) ;
END NETS
";

/// `SP_2` is the NAND of b and n1 for D of r1.
const NAND: &str = "- VDD ( * VDD ) + USE POWER ;
- VSS ( * VSS ) ( SP_1 A ) ( SP_1 B ) ( SP_3 A ) ( SP_3 B ) ( SP_3 C ) + USE GROUND ;
END SPECIALNETS
NETS 7 ;
- a ( PIN a ) ( u1 A ) ;
- b ( PIN b ) ( u1 B ) ( SP_2 B ) ;
- ck ( PIN ck ) ( r1 CK ) ;
- n1 ( u1 Y ) ( u2 A ) ( SP_2 A ) ;
- n2 ( u2 Y ) ;
- q ( r1 Q ) ( PIN q ) ;
- m1 ( SP_2 Y ) ( r1 D ) ;
END NETS
";

/// Lines, what is told, what stands in the DEF, and what stands in its place in the output.
const ISSUED: [(&str, &str, &str, &str); 5] = [
    (
        "move --def d --comp r1 --pin D --from n2 --to n1 --out o",
        "0 written 963\n>",
        UNMOVED,
        MOVED,
    ),
    (
        "move --out o --to n1 --from n2 --pin D --comp r1 --def d",
        "0 written 963\n>",
        UNMOVED,
        MOVED,
    ),
    (
        "move --def d --comp r1 --pin D --from n2 --to n2 --out o",
        "0 written 1000\n>",
        UNMOVED,
        UNMOVED,
    ),
    (APPLY, "0 written 981\n>", NETS, INVERTED),
    (
        "apply --out o --from n2 --pin D --comp r1 --output m1 --pins i1,i0 --inputs b,n1 --table 1110 --spare SP_2 --desk k --functions f --def d --lef l",
        "0 written 981\n>",
        NETS,
        NAND,
    ),
];

#[test]
fn a_def_is_issued_and_its_length_printed(rt: HostRuntime) -> Result<(), Fail> {
    let alloc = rt.alloc();
    for (line, told, old, new) in ISSUED {
        let issued = DEF.replace(alloc, old, new)?;
        let wanted = format!(in alloc; "{told}{issued}")?;
        let said = edited(alloc, line, "", "")?;
        assert_eq!(rt; said.as_str(), wanted.as_str(), "{line}");
    }
    Ok(())
}

/// What stands in the line of an order, what stands in its place, and the answer.
const REFUSED: [(&str, &str, &str); 9] = [
    ("--spare SP_1", "--spare u1", "1 eco: apply NotSpare\n"),
    ("--spare SP_1", "--spare SP_4", "1 eco: apply NotSpare\n"),
    ("--spare SP_1", "--spare SP_9", "1 eco: apply NotSpare\n"),
    ("--inputs n1", "--inputs zz", "1 eco: apply BadOrder\n"),
    ("--output m1", "--output n1", "1 eco: apply BadOrder\n"),
    ("--from n2", "--from n1", "1 eco: apply BadOrder\n"),
    // a circle
    (
        "--comp r1 --pin D --from n2",
        "--comp u1 --pin A --from a",
        "1 eco: apply BadOrder\n",
    ),
    ("--pins 1,i0", "--pins 0,i0", "1 eco: apply NotEmbedding\n"),
    (
        "--functions f --desk k",
        "--functions k --desk f",
        "1 eco: base Func BadField master=spares field=inputs\n",
    ),
];

#[test]
fn orders_that_are_refused(rt: HostRuntime) -> Result<(), Fail> {
    for (old, new, wanted) in REFUSED {
        let said = edited(rt.alloc(), APPLY, old, new)?;
        assert_eq!(rt; said.as_str(), wanted, "{new}");
    }
    Ok(())
}

const MOVE: &str = "move --def d --comp r1 --pin D --from n2 --to n1 --out o";

/// The same of a move.
const UNMOVABLE: [(&str, &str, &str); 4] = [
    ("--comp r1", "--comp r9", "1 eco: move UnknownComponent\n"),
    ("--pin D", "--pin Q", "1 eco: move NotOnNet\n"),
    (
        "--from n2 --to n1",
        "--from n1 --to n2",
        "1 eco: move NotOnNet\n",
    ),
    ("--to n1", "--to zz", "1 eco: move UnknownNet\n"),
];

#[test]
fn moves_that_are_refused(rt: HostRuntime) -> Result<(), Fail> {
    for (old, new, wanted) in UNMOVABLE {
        let said = edited(rt.alloc(), MOVE, old, new)?;
        assert_eq!(rt; said.as_str(), wanted, "{new}");
    }
    Ok(())
}
