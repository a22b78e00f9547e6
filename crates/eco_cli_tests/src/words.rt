//! Words without a reading: the index of the first bad one is told, and nothing is opened.

use crate::answer::{beside, edited};
use std::process::Abort;
use std::test::Fail;

/// Lines, and their answers.
const LINES: [(&str, &str); 21] = [
    ("", "2 eco: words 0\n"),
    ("mov", "2 eco: words 0\n"),
    ("serve", "2 eco: words 0\n"),
    ("move", "2 eco: words 1\n"),
    ("check", "2 eco: words 1\n"),
    ("apply", "2 eco: words 1\n"),
    ("move --def", "2 eco: words 2\n"),
    (
        "move --def d --comp r1 --pin D --from n2 --to n1",
        "2 eco: words 11\n",
    ),
    (
        "move --def d --comp r1 --pin D --from n2 --to n1 --out",
        "2 eco: words 12\n",
    ),
    (
        "move --def d --comp r1 --pin D --from n2 --to n1 --out o more",
        "2 eco: words 13\n",
    ),
    (
        "move --def d --def d --pin D --from n2 --to n1 --out o",
        "2 eco: words 3\n",
    ),
    (
        "move --def d --cell r1 --pin D --from n2 --to n1 --out o",
        "2 eco: words 3\n",
    ),
    (
        "move --def=d --comp r1 --pin D --from n2 --to n1 --out o",
        "2 eco: words 1\n",
    ),
    (
        "move --def --comp r1 --pin D --from n2 --to n1 --out o",
        "2 eco: words 2\n",
    ),
    (
        "move --def d --comp r1 --pin -D --from n2 --to n1 --out o",
        "2 eco: words 6\n",
    ),
    ("check --lef l --def d --functions f", "2 eco: words 7\n"),
    (
        "check --lef l --def d --functions f --desk",
        "2 eco: words 8\n",
    ),
    (
        "check --lef l --def d --functions f --desk k more",
        "2 eco: words 9\n",
    ),
    (
        "check --lef l --def d --functions f --low k",
        "2 eco: words 7\n",
    ),
    ("check --lef l --def d --lef l --desk k", "2 eco: words 5\n"),
    (
        "check --lef l --def d --functions f --desk k --out o",
        "2 eco: words 9\n",
    ),
];

#[test]
fn lines_without_a_reading(rt: HostRuntime) -> Result<(), Fail> {
    for (line, wanted) in LINES {
        let said = beside(rt.alloc(), line, "")?;
        assert_eq!(rt; said.as_str(), wanted, "{line}");
    }
    Ok(())
}

const APPLY: &str =
    "apply --lef l --def d --functions f --desk k --spare SP_1 --table 10 --inputs n1 --pins 1,i0 --output m1 --comp r1 --pin D --from n2 --out o";

const VALUES: &str = "--table 10 --inputs n1 --pins 1,i0";

/// What stands in the place of the values that have a form of their own, and the answers. The last four have a reading.
const FORMS: [(&str, &str); 16] = [
    ("--table 101 --inputs n1 --pins 1,i0", "2 eco: words 12\n"),
    ("--table 12 --inputs n1 --pins 1,i0", "2 eco: words 12\n"),
    ("--table 1,0 --inputs n1 --pins 1,i0", "2 eco: words 12\n"),
    ("--table 10 --inputs a,,b --pins 1,i0", "2 eco: words 14\n"),
    ("--table 10 --inputs ,a --pins 1,i0", "2 eco: words 14\n"),
    ("--table 10 --inputs a, --pins 1,i0", "2 eco: words 14\n"),
    ("--table 10 --inputs , --pins 1,i0", "2 eco: words 14\n"),
    ("--table 10 --inputs n1 --pins 1,i6", "2 eco: words 16\n"),
    ("--table 10 --inputs n1 --pins i", "2 eco: words 16\n"),
    ("--table 10 --inputs n1 --pins 01", "2 eco: words 16\n"),
    ("--table 10 --inputs n1 --pins 1,", "2 eco: words 16\n"),
    (
        "--table 10 --inputs n1 --pins 0,0,0,0,0,0,0",
        "2 eco: words 16\n",
    ),
    (
        "--table 1 --inputs n1,b --pins 0",
        "1 eco: apply BadOrder\n",
    ),
    (
        "--table 0000000000000000000000000000000000000000000000000000000000000001 --inputs n1 --pins i0",
        "1 eco: apply BadOrder\n",
    ),
    (
        "--table 1110 --inputs n1,b --pins 0,1,i0,i1,i4,i5",
        "1 eco: apply NotEmbedding\n",
    ),
    (
        "--table 10 --inputs n1 --pins 1",
        "1 eco: apply NotEmbedding\n",
    ),
];

#[test]
fn values_with_a_form(rt: HostRuntime) -> Result<(), Fail> {
    for (values, wanted) in FORMS {
        let said = edited(rt.alloc(), APPLY, VALUES, values)?;
        assert_eq!(rt; said.as_str(), wanted, "{values}");
    }
    Ok(())
}
