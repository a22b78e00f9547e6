//! What a command line answers, as plain text.

use eco_cli::{MemoryHost, run};
use eco_small_base::{DEF, DESK, FUNCTIONS, LEF};
use eco_text::{ByteSink, ByteSource};
use std::alloc::Global;
use std::test::Fail;

/// Numbers of calls that fail: of each source, of the output, and of what is printed to. 0 is none.
#[derive(Clone, Copy, Drop)]
pub struct Failing {
    pub source: u64,
    pub output: u64,
    pub out: u64,
}

const NONE: Failing = Failing {
    source: 0,
    output: 0,
    out: 0,
};

fn list_of(alloc: Global, number: u64) -> Result<Vec<u64>, Fail> {
    let mut list = Vec::new(alloc);
    if 0 < number {
        list.push(number)?;
    }
    Ok(list)
}

fn words_of(alloc: Global, line: &str) -> Result<Vec<String>, Fail> {
    let mut words = Vec::new(alloc);
    for word in line.split(' ') {
        if word != "" {
            words.push(String::from_str(alloc, word)?)?;
        }
    }
    Ok(words)
}

/// A host that has these texts under these names, in this order, and a sink under the name o.
fn host_of(alloc: Global, texts: &[(&str, &str)], failing: Failing) -> Result<MemoryHost, Fail> {
    let mut host = MemoryHost::new(alloc);
    for (name, text) in texts {
        let bytes = Vec::from_slice(alloc, text.as_bytes())?;
        let source = ByteSource::new(bytes, list_of(alloc, failing.source)?);
        host.lay_source(name, source)?;
    }
    host.lay_sink("o", ByteSink::new(list_of(alloc, failing.output)?))?;
    Ok(host)
}

/// The status, and what was printed.
fn status(
    alloc: Global,
    line: &str,
    host: &mut MemoryHost,
    failing: Failing,
) -> Result<String, Fail> {
    let words = words_of(alloc, line)?;
    let mut input = ByteSource::new(Vec::new(alloc), Vec::new(alloc));
    let mut out = ByteSink::new(list_of(alloc, failing.out)?);
    let status = run(alloc, &words, host, &mut input, &mut out);
    let printed = String::from_utf8(Vec::from_slice(alloc, out.bytes())?)?;
    Ok(format!(in alloc; "{status} {printed}")?)
}

/// Runs a line at a host that has these texts under these names. Its answer is the status and what was printed, and what
/// each opened output took, behind `>`.
pub fn answer(
    alloc: Global,
    line: &str,
    texts: &[(&str, &str)],
    failing: Failing,
) -> Result<String, Fail> {
    let mut host = host_of(alloc, texts, failing)?;
    let mut said = status(alloc, line, &mut host, failing)?;
    for sink in host.sinks() {
        let taken = String::from_utf8(Vec::from_slice(alloc, sink.bytes())?)?;
        said.push('>')?;
        said.push_str(&taken)?;
    }
    Ok(said)
}

/// A text in which, pair after pair, the second stands in the place of the first.
pub fn replaced(alloc: Global, text: &str, edits: &[(&str, &str)]) -> Result<String, Fail> {
    let mut text = String::from_str(alloc, text)?;
    for (old, new) in edits {
        text = text.replace(alloc, old, new)?;
    }
    Ok(text)
}

/// Runs a line at a host that has the texts of the small base under the names l, d, f and k, and all four in this order
/// under the name a. The line and the texts are edited pair after pair.
pub fn edited_by(alloc: Global, line: &str, edits: &[(&str, &str)]) -> Result<String, Fail> {
    let line = replaced(alloc, line, edits)?;
    let lef = replaced(alloc, LEF, edits)?;
    let def = replaced(alloc, DEF, edits)?;
    let functions = replaced(alloc, FUNCTIONS, edits)?;
    let desk = replaced(alloc, DESK, edits)?;
    let texts = [
        ("l", lef.as_str()),
        ("d", def.as_str()),
        ("f", functions.as_str()),
        ("k", desk.as_str()),
        ("a", lef.as_str()),
        ("a", def.as_str()),
        ("a", functions.as_str()),
        ("a", desk.as_str()),
    ];
    answer(alloc, &line, &texts, NONE)
}

/// The same where `new` stands in the place of `old`.
pub fn edited(alloc: Global, line: &str, old: &str, new: &str) -> Result<String, Fail> {
    edited_by(alloc, line, &[(old, new)])
}

/// Runs a line at a host that has the texts of the small base under the names l, d, f and k, and this under the name x.
pub fn beside(alloc: Global, line: &str, text: &str) -> Result<String, Fail> {
    let texts = [
        ("l", LEF),
        ("d", DEF),
        ("f", FUNCTIONS),
        ("k", DESK),
        ("x", text),
    ];
    answer(alloc, line, &texts, NONE)
}
