//! The inputs and outputs of a command: their order, those that are absent, and those that fail.

use crate::answer::{Failing, answer, edited};
use eco_small_base::DEF;
use std::process::Abort;
use std::test::Fail;

/// The small base is counted.
const REPORT: &str =
    "0 components 7\ngates 6\nboxes 1\nnets 8\npins 19\nstock 3\nlevels 2\nskipped 1\n";

/// Lines, and their answers. The sources of the name a are a LEF, a DEF, a functions file and a desk file, in this order.
const LINES: [(&str, &str); 15] = [
    ("check --lef l --def d --functions f --desk k", REPORT),
    ("check --desk k --functions f --def d --lef l", REPORT),
    ("check --lef a --def a --functions a --desk a", REPORT),
    ("check --desk a --functions a --def a --lef a", REPORT),
    (
        "check --lef l --def a --functions f --desk k",
        "1 eco: base Def UnknownHeading place=14\n",
    ),
    // f is laid ready once
    (
        "check --lef l --def d --functions f --desk f",
        "3 eco: read fault\n",
    ),
    (
        "check --lef x --def d --functions f --desk k",
        "3 eco: read fault\n",
    ),
    (
        "check --lef l --def x --functions f --desk k",
        "3 eco: read fault\n",
    ),
    (
        "check --lef l --def d --functions x --desk k",
        "3 eco: read fault\n",
    ),
    (
        "check --lef l --def d --functions f --desk x",
        "3 eco: read fault\n",
    ),
    // no name of an input is that of an output
    (
        "check --lef l --def o --functions f --desk k",
        "3 eco: read fault\n",
    ),
    (
        "move --def x --comp r1 --pin D --from n2 --to n1 --out o",
        "3 eco: read fault\n",
    ),
    // a refused move opens no output
    (
        "move --def d --comp r1 --pin D --from n2 --to zz --out x",
        "1 eco: move UnknownNet\n",
    ),
    (
        "move --def d --comp r1 --pin D --from n2 --to n1 --out x",
        "3 eco: read fault\n",
    ),
    (
        "apply --lef l --def d --functions f --desk k --spare SP_1 --table 10 --inputs n1 --pins 1,i0 --output m1 --comp r1 --pin D --from n2 --out x",
        "3 eco: read fault\n",
    ),
];

#[test]
fn inputs_are_opened_in_the_order_of_the_table(rt: HostRuntime) -> Result<(), Fail> {
    for (line, wanted) in LINES {
        let said = edited(rt.alloc(), line, "", "")?;
        assert_eq!(rt; said.as_str(), wanted, "{line}");
    }
    Ok(())
}

const MOVE: &str = "move --def d --comp r1 --pin D --from n2 --to n1 --out o";

/// What the output takes of the move above.
const MOVED: (&str, &str) = (
    "( u2 A ) + ROUTED M1 ( 1000 1000 ) ( 3000 * ) ;
- n2 ( u2 Y ) ( r1 D ) ;",
    "( u2 A ) ( r1 D ) ;
- n2 ( u2 Y ) ;",
);

/// The numbers of failing calls of the source, of the output and of what is printed to; what is told; and whether the
/// output took all, or only less.
const FAILURES: [(u64, u64, u64, &str, bool); 6] = [
    (1, 0, 0, "3 eco: read fault\n", false),
    (2, 0, 0, "3 eco: read fault\n", false),
    (0, 1, 0, "4 eco: write fault\n>", false),
    (0, 3, 0, "4 eco: write fault\n>", false),
    (0, 0, 1, "4 >", true),
    (0, 0, 2, "4 written >", true),
];

#[test]
fn calls_that_fail(rt: HostRuntime) -> Result<(), Fail> {
    let alloc = rt.alloc();
    let issued = DEF.replace(alloc, MOVED.0, MOVED.1)?;
    for (source, output, out, told, all) in FAILURES {
        let failing = Failing {
            source,
            output,
            out,
        };
        let said = answer(alloc, MOVE, &[("d", DEF)], failing)?;
        let taken = said.strip_prefix(told).ok_or(told)?;
        assert!(rt; issued.starts_with(taken), "{said}");
        assert_eq!(rt; taken == issued.as_str(), all, "{said}");
    }
    Ok(())
}
