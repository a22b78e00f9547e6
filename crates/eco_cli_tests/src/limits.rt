//! Texts at their limits, and beyond.

use crate::answer::beside;
use std::alloc::Global;
use std::process::Abort;
use std::test::Fail;

const MOVE: &str = "move --def x --comp r1 --pin D --from n2 --to n1 --out o";

const LEF: &str = "check --lef x --def d --functions f --desk k";

const DEF: &str = "check --lef l --def x --functions f --desk k";

const FUNCTIONS: &str = "check --lef l --def d --functions x --desk k";

const DESK: &str = "check --lef l --def d --functions f --desk x";

/// Lines, what the text x is made of, how many of these there are, and the answer.
const LENGTHS: [(&str, &str, usize, &str); 8] = [
    (LEF, " ", 67_108_864, "1 eco: base UnknownMaster comp=u1\n"),
    (LEF, " ", 67_108_865, "1 eco: TooLong --lef\n"),
    (
        MOVE,
        " ",
        134_217_728,
        "1 eco: def Unended place=134217728\n",
    ),
    (DEF, " ", 134_217_729, "1 eco: TooLong --def\n"),
    (FUNCTIONS, "x", 16_777_216, "1 eco: base Func BadToml\n"),
    // the desk file isn't there, and isn't opened
    (
        "check --lef l --def d --functions x --desk y",
        "x",
        16_777_217,
        "1 eco: TooLong --functions\n",
    ),
    (DESK, " ", 1_048_576, "1 eco: base Desk field=tie_high\n"),
    (DESK, " ", 1_048_577, "1 eco: TooLong --desk\n"),
];

#[test]
fn the_longest_texts_and_one_byte_more(rt: HostRuntime) -> Result<(), Fail> {
    let alloc = rt.alloc();
    for (line, part, count, wanted) in LENGTHS {
        let text = part.repeat(alloc, count)?;
        let said = beside(alloc, line, &text)?;
        assert_eq!(rt; said.as_str(), wanted, "{line}");
    }
    Ok(())
}

/// A part so many times, with a number of seven digits in the place of each #, from 1000000.
fn counted(alloc: Global, part: &str, count: u32) -> Result<String, Fail> {
    let mut text = String::new(alloc);
    for number in 0..count {
        let number = format!(in alloc; "{}", 1_000_000 + u64::from(number))?;
        text.push_str(&part.replace(alloc, "#", &number)?)?;
    }
    Ok(text)
}

/// The same of parts with numbers.
const COUNTS: [(&str, &str, u32, &str); 2] = [
    (
        LEF,
        "MACRO m# END m#\n",
        16_385,
        "1 eco: base Lef TooManyMasters place=458758\n",
    ),
    (
        FUNCTIONS,
        "[m#]\n",
        16_385,
        "1 eco: base Func TooManyMasters count=16385\n",
    ),
];

#[test]
fn more_masters_than_there_may_be(rt: HostRuntime) -> Result<(), Fail> {
    let alloc = rt.alloc();
    for (line, part, count, wanted) in COUNTS {
        let text = counted(alloc, part, count)?;
        let said = beside(alloc, line, &text)?;
        assert_eq!(rt; said.as_str(), wanted, "{part}");
    }
    Ok(())
}

#[test]
fn more_joints_than_there_may_be(rt: HostRuntime) -> Result<(), Fail> {
    let alloc = rt.alloc();
    let joints = "( u A ) ".repeat(alloc, 4_000_001)?;
    let text = format!(in alloc; "NETS 1 ; - a {joints}")?;
    let said = beside(alloc, MOVE, &text)?;
    assert_eq!(rt; said.as_str(), "1 eco: def Limit place=32000013\n");
    Ok(())
}

/// The DEF of the small base with so many spares more, all of them stock.
fn stocked(alloc: Global, count: u32) -> Result<String, Fail> {
    let comps = counted(alloc, "- SP_# INV + FIXED ( 0 0 ) N ;\n", count)?;
    let pins = counted(alloc, "( SP_# A ) ", count)?;
    let text = eco_small_base::DEF.replace(
        alloc,
        "END COMPONENTS",
        &format!(in alloc; "{comps}END COMPONENTS")?,
    )?;
    Ok(text.replace(
        alloc,
        "+ USE GROUND",
        &format!(in alloc; "{pins}+ USE GROUND")?,
    )?)
}

/// How many spares stand beside the three of the small base, and the answer.
const STOCKS: [(u32, &str); 2] = [
    (
        32_765,
        "0 components 32772\ngates 32771\nboxes 1\nnets 8\npins 32784\nstock 32768\nlevels 2\nskipped 1\n",
    ),
    (32_766, "1 eco: base TooMuchStock count=32769\n"),
];

#[test]
fn the_largest_stock_and_one_spare_more(rt: HostRuntime) -> Result<(), Fail> {
    let alloc = rt.alloc();
    for (count, wanted) in STOCKS {
        let text = stocked(alloc, count)?;
        let said = beside(alloc, DEF, &text)?;
        assert_eq!(rt; said.as_str(), wanted);
    }
    Ok(())
}
