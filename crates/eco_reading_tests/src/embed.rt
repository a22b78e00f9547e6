//! Embeddings of gates in masters.

use eco_embed::{Embedding, Feed, embed, fits};
use eco_func::{Functions, Table, read_functions, read_table};
use std::alloc::Global;
use std::test::Fail;

/// NAND2 and AOI21 have their usual functions; HA is a half adder with its carry first.
const MASTERS: &str =
    "[NAND2]\ninputs = [\"A\", \"B\"]\noutputs = { Y = \"1110\" }\n[AOI21]\ninputs = [\"A\", \"B\", \"C\"]\noutputs = { Y = \"11100000\" }\n[HA]\ninputs = [\"A\", \"B\"]\noutputs = { S = \"0110\", C = \"0001\" }\n";

fn masters(alloc: Global) -> Result<Functions, Fail> {
    Ok(read_functions(alloc, MASTERS.as_bytes())?)
}

/// The table that a text gives.
fn table(inputs: u8, text: &str) -> Result<Table, Fail> {
    if 6 < inputs {
        return Err(Fail::new("too many inputs"));
    }
    Ok(read_table(inputs, text.as_bytes()).ok_or("no table")?)
}

/// The first embedding of a table in a master.
fn first(masters: &Functions, master: &str, want: &Table) -> Result<Option<Embedding>, Fail> {
    let master = masters.find(master.as_bytes()).ok_or("no such master")?;
    Ok(embed(want, master))
}

/// An embedding in one line: its output, and what each pin is put on.
fn line_of(alloc: Global, embedding: Embedding) -> Result<String, Fail> {
    let mut line = format!(in alloc; "{}:", embedding.output)?;
    for feed in embedding.pins {
        match feed {
            Feed::Zero => line.push_str(" 0")?,
            Feed::One => line.push_str(" 1")?,
            Feed::Input(input) => write!(line, " i{input}")?,
        }
    }
    Ok(line)
}

/// The first embedding in one line.
fn told(alloc: Global, masters: &Functions, master: &str, want: &Table) -> Result<String, Fail> {
    match first(masters, master, want)? {
        Some(embedding) => line_of(alloc, embedding),
        None => Ok(String::new(alloc)),
    }
}

/// The inputs and the table of a gate, a master, and the first embedding.
const GATES: [(u8, &str, &str, &str); 9] = [
    (2, "1000", "AOI21", "0: 1 i0 i1 0 0 0"),
    (1, "10", "NAND2", "0: 1 i0 0 0 0 0"),
    (2, "0110", "AOI21", ""),
    (2, "0111", "NAND2", ""),
    (0, "1", "AOI21", "0: 0 0 0 0 0 0"),
    (0, "0", "AOI21", "0: 0 0 1 0 0 0"),
    (2, "0110", "HA", "1: i0 i1 0 0 0 0"),
    (1, "01", "HA", "0: 1 i0 0 0 0 0"),
    (1, "10", "HA", "1: 1 i0 0 0 0 0"),
];

#[test]
fn first_embeddings(rt: HostRuntime) -> Result<(), Fail> {
    let masters = masters(rt.alloc())?;
    for (inputs, text, master, wanted) in GATES {
        let want = table(inputs, text)?;
        let found = told(rt.alloc(), &masters, master, &want)?;
        assert_eq!(rt; found.as_str(), wanted, "{text} {master}");
    }
    Ok(())
}

/// Whether this is an embedding of a table in a master.
fn is_one(masters: &Functions, master: &str, want: &Table, e: Embedding) -> Result<bool, Fail> {
    let master = masters.find(master.as_bytes()).ok_or("no such master")?;
    Ok(fits(want, master, &e))
}

const O: Feed = Feed::Zero;

const I: Feed = Feed::One;

/// Outputs and feeds of AOI21, and whether they make a NOR2.
const FEEDS: [(u8, [Feed; 6], bool); 6] = [
    (0, [Feed::Input(0), I, Feed::Input(1), O, O, O], true),
    (0, [I, Feed::Input(0), Feed::Input(1), O, O, O], true),
    (0, [Feed::Input(0), O, Feed::Input(1), O, O, O], false),
    (0, [I, Feed::Input(0), Feed::Input(1), O, O, I], false),
    (0, [I, Feed::Input(0), Feed::Input(2), O, O, O], false),
    (1, [I, Feed::Input(0), Feed::Input(1), O, O, O], false),
];

#[test]
fn other_feeds_that_fit_or_not(rt: HostRuntime) -> Result<(), Fail> {
    let masters = masters(rt.alloc())?;
    let want = table(2, "1000")?;
    for (output, pins, fit) in FEEDS {
        let found = is_one(&masters, "AOI21", &want, Embedding { output, pins })?;
        assert_eq!(rt; found, fit, "{output} {pins:?}");
    }
    Ok(())
}
