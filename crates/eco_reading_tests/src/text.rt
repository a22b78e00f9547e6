//! Words and numbers of texts, and objects in memory.

use crate::line::push_bytes;
use eco_text::{
    ByteSink, ByteSource, Sink, Source, Words, between, part, read_i32, read_microns, read_natural,
    read_number, write_pieces,
};
use std::alloc::Global;
use std::test::Fail;

/// The next word behind a line, in brackets, or the fault. Whether there may be another.
fn push_word(line: &mut String, words: &mut Words, text: &str) -> Result<bool, Fail> {
    match words.next_word() {
        Ok(Some(word)) => {
            line.push_str("[")?;
            push_bytes(line, between(text.as_bytes(), word.start, word.end))?;
            line.push_str(if word.quoted { "]q" } else { "]" })?;
            Ok(true)
        }
        Ok(None) => Ok(false),
        Err(fault) => {
            write!(line, "{fault}")?;
            Ok(false)
        }
    }
}

/// The words of a text, each in brackets, and a fault.
fn words_of(alloc: Global, text: &str) -> Result<String, Fail> {
    if 1000 < text.len() {
        return Err(Fail::new("a long text"));
    }
    let mut line = String::new(alloc);
    let mut words = Words::new(text.as_bytes());
    for _ in 0..text.len() {
        if !push_word(&mut line, &mut words, text)? {
            return Ok(line);
        }
    }
    Ok(line)
}

/// Texts, and their words.
const WORDS: [(&str, &str); 12] = [
    ("", ""),
    (" \t\r\n", ""),
    ("- u1 NAND2 ;", "[-][u1][NAND2][;]"),
    ("a\tb\r\nc", "[a][b][c]"),
    ("a # b c\nd", "[a][d]"),
    ("a# b", "[a#][b]"),
    ("# x\r y", ""),
    ("x \"a ; b\" y", "[x][\"a ; b\"]q[y]"),
    ("\"a\\\" b\"c", "[\"a\\\" b\"]q[c]"),
    ("a\"b c", "[a\"b][c]"),
    ("a \"b c", "[a]OpenQuote place=2"),
    ("u1/r\\[0\\] (", "[u1/r\\[0\\]][(]"),
];

#[test]
fn words_with_comments_quotes_and_ends(rt: HostRuntime) -> Result<(), Fail> {
    for (text, wanted) in WORDS {
        assert_eq!(rt; words_of(rt.alloc(), text)?.as_str(), wanted, "{text}");
    }
    Ok(())
}

/// A word as an integer.
fn integer(word: &str) -> Option<i32> {
    read_i32(word.as_bytes()).ok()
}

/// A word as a number up to 10, with zeros in front.
fn natural(word: &str) -> Option<u32> {
    read_natural(10, word.as_bytes())
}

/// A word as a number up to 10, without zeros in front.
fn number(word: &str) -> Option<u32> {
    read_number(10, word.as_bytes())
}

/// Words as integers, as numbers up to 10 with zeros in front, and without.
const NUMBERS: [(&str, Option<i32>, Option<u32>, Option<u32>); 14] = [
    ("0", Some(0), Some(0), Some(0)),
    ("10", Some(10), Some(10), Some(10)),
    ("11", Some(11), None, None),
    ("01", Some(1), Some(1), None),
    ("007", Some(7), Some(7), None),
    ("-1", Some(-1), None, None),
    ("2147483647", Some(2147483647), None, None),
    ("2147483648", None, None, None),
    ("-2147483648", Some(-2147483648), None, None),
    ("-2147483649", None, None, None),
    ("", None, None, None),
    ("-", None, None, None),
    ("+1", None, None, None),
    ("1.0", None, None, None),
];

#[test]
fn numbers_within_and_beyond_their_range(rt: HostRuntime) -> Result<(), Fail> {
    for (word, as_integer, as_natural, as_number) in NUMBERS {
        assert_eq!(rt; integer(word), as_integer, "{word}");
        assert_eq!(rt; natural(word), as_natural, "{word}");
        assert_eq!(rt; number(word), as_number, "{word}");
    }
    Ok(())
}

/// A word as a length in millionths of a micron.
fn length(word: &str) -> Option<u64> {
    read_microns(word.as_bytes()).ok()
}

/// Words as lengths in millionths of a micron.
const LENGTHS: [(&str, Option<u64>); 18] = [
    ("2", Some(2_000_000)),
    ("0.4", Some(400_000)),
    ("4.800", Some(4_800_000)),
    (".5", Some(500_000)),
    ("5.", Some(5_000_000)),
    ("0.0000019", Some(1)),
    ("007.5", Some(7_500_000)),
    ("10000", Some(10_000_000_000)),
    ("10000.0000009", Some(10_000_000_000)),
    ("10000.000001", None),
    ("99999999999999999999999", None),
    ("", None),
    (".", None),
    ("1.2.3", None),
    ("-1", None),
    ("+1", None),
    ("1e3", None),
    ("1.000000x", None),
];

#[test]
fn lengths_in_microns(rt: HostRuntime) -> Result<(), Fail> {
    for (word, wanted) in LENGTHS {
        assert_eq!(rt; length(word), wanted, "{word}");
    }
    Ok(())
}

/// The next two bytes of a source behind a line, or that it failed.
fn push_read(line: &mut String, source: &mut ByteSource) -> Result<(), Fail> {
    let mut piece = [0; 2];
    match source.read(&mut piece) {
        Ok(count) => {
            line.push_str("[")?;
            push_bytes(line, part(&piece, 0, count))?;
            line.push_str("]")?;
        }
        Err(_) => line.push_str("failed")?,
    }
    Ok(())
}

/// What four reads give of three bytes where the second read fails.
fn reads_of_a_source(alloc: Global) -> Result<String, Fail> {
    let failing = Vec::from_slice(alloc, &[2])?;
    let mut source = ByteSource::new(Vec::from_slice(alloc, b"abc")?, failing);
    let mut line = String::new(alloc);
    for _ in 0..4 {
        push_read(&mut line, &mut source)?;
    }
    write!(line, " {}", source.has_failed())?;
    Ok(line)
}

/// Puts a piece into a sink, and behind a line whether that went.
fn push_write(line: &mut String, sink: &mut ByteSink, piece: &str) -> Result<(), Fail> {
    match write_pieces(sink, &[piece.as_bytes()]) {
        Ok(()) => line.push_str(".")?,
        Err(_) => line.push_str("failed")?,
    }
    Ok(())
}

/// What a sink takes of three pieces, where the second write and the end fail.
fn writes_to_a_sink(alloc: Global) -> Result<String, Fail> {
    let mut sink = ByteSink::new(Vec::from_slice(alloc, &[2, 4])?);
    let mut line = String::new(alloc);
    for piece in ["ab", "c", "d"] {
        push_write(&mut line, &mut sink, piece)?;
    }
    write!(line, " {} {} ", sink.finish().is_ok(), sink.has_failed())?;
    push_bytes(&mut line, sink.bytes())?;
    Ok(line)
}

#[test]
fn objects_in_memory_fail_at_the_listed_calls(rt: HostRuntime) -> Result<(), Fail> {
    let reads = reads_of_a_source(rt.alloc())?;
    assert_eq!(rt; reads.as_str(), "[ab]failed[c][] true");
    let writes = writes_to_a_sink(rt.alloc())?;
    assert_eq!(rt; writes.as_str(), ".failed. false true abd");
    Ok(())
}
