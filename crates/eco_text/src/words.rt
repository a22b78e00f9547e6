//! The words of a text, one after another.

ghost use Rattle.std.specs.Prelude.{◌≡◌, ◌+◌, ◌<◌, ◌≤◌, ◌==◌, length, false, Option, Some, None, unwrap_or, position, IfOk, IfSome, IsOkAnd, IsSome, Ok, Err, true, slice_index, ◌⊎◌};
ghost use Rattle.std.specs.List.{position_or_len};
ghost use Rattle.eco_text.specs.Words.{is_blank, word_then, open_quote};
ghost use Rattle.eco_text.specs.Bytes.{begins_word, is_line_feed, quoted_len};
ghost use Rattle.eco_text.specs.Cursor.{from, token, rest, after, IsWithin};

use crate::word::{TextFault, Word};
use eco_common::MAX_DEF_BYTES;
use std::marker::Model;

/// A walk over the words of a text, from front to back.
///
/// White space is tab, line feed, carriage return and blank. A word is a longest run of other bytes; one that begins
/// with `#` begins a comment to the end of its line, and one that begins with `"` goes on to the next `"` that no
/// backslash stands before.
#[derive(Drop)]
pub struct Words<'a> {
    text: &'a [u8],
    at: usize,
}

impl<'a> Model for Words<'a> {
    ghost use Rattle.std.specs.Prelude.{◌≤◌, length};
    ghost use Rattle.eco_common.specs.declared.limits.TheConstants.{MAX_DEF_BYTES};
    ghost use Rattle.eco_text.specs.Cursor.{Cursor};

    ghost Value = { Cursor };

    ghost view = { λ w. record { text = w.text.now; at = w.at } };

    ghost invariant = { λ w. (w.at ≤ length w.text.now) × (length w.text.now ≤ MAX_DEF_BYTES) };
}

fn is_white(byte: u8) -> bool
    ensures { result ≡ is_blank byte }
{
    matches!(byte, b'\t' | b'\n' | b'\r' | b' ')
}

fn line_feed_place(bytes: &[u8]) -> Option<usize>
    ensures { result ≡ position is_line_feed bytes.now }
{
    bytes.iter().position(|byte| *byte == b'\n')
}

fn white_place(bytes: &[u8]) -> Option<usize>
    ensures { result ≡ position is_blank bytes.now }
{
    bytes.iter().position(|byte| is_white(*byte))
}

/// How many bytes the line has that these bytes begin with.
#[tactic(auto, using(crate::proofs::Lengths::unwrap_or_position))]
fn line_len(bytes: &[u8]) -> usize
    ensures within { result ≤ length bytes.now }
    ensures first { result ≡ position_or_len is_line_feed bytes.now }
{
    line_feed_place(bytes).unwrap_or(bytes.len())
}

/// How many bytes stand before the first white space.
#[tactic(auto, using(crate::proofs::Lengths::unwrap_or_position))]
fn plain_len(bytes: &[u8]) -> usize
    ensures within { result ≤ length bytes.now }
    ensures first { result ≡ position_or_len is_blank bytes.now }
{
    white_place(bytes).unwrap_or(bytes.len())
}

/// How many bytes a quoted word has after its opening quote.
fn quoted_tail_len(bytes: &[u8]) -> Option<usize>
    ensures within { IfSome result (λ n. n ≤ length bytes.now) }
    ensures first { result ≡ quoted_len false bytes.now }
{
    let mut escaped = false;
    for (i, byte) in bytes.iter().enumerate() {
        if *byte == b'"' && !escaped {
            return Some(i + 1);
        }
        escaped = *byte == b'\\';
    }
    None
}

/// Where the next word begins from `from` on, after white space and comments, or the text's end.
#[tactic(auto, using(crate::proofs::WalkSteps::walk_comment, crate::proofs::WalkSteps::walk_blank))]
fn word_start(text: &[u8], start: usize) -> usize
    requires { start ≤ length text.now }
    ensures within { result ≤ length text.now }
    ensures same { from text.now result ≡ from text.now start }
    ensures begins { result < length text.now → begins_word (slice_index text.now result) ≡ true }
{
    let mut at = start;
    while at < text.len() {
        match text[at] {
            b'#' => at += 1 + line_len(&text[at + 1..]),
            byte if is_white(byte) => at += 1,
            _ => return at,
        }
    }
    at
}

/// The word that begins at `start` and isn't quoted.
fn plain_word(text: &[u8], start: usize) -> Word
    requires short { length text.now ≤ MAX_DEF_BYTES }
    requires within { start < length text.now }
    requires begins { begins_word (slice_index text.now start) ≡ true }
    requires plain { (slice_index text.now start == 34) ≡ false }
    ensures order { IsWithin result start (length text.now) }
    ensures found { from text.now start ≡ word_then (token text.now result) (from text.now result.end) }
{
    let end = start + 1 + plain_len(&text[start + 1..]);
    Word {
        start: start as u32,
        end: end as u32,
        quoted: false,
    }
}

/// The quoted word that begins at `start`.
fn quoted_word(text: &[u8], start: usize) -> Option<Word>
    requires short { length text.now ≤ MAX_DEF_BYTES }
    requires within { start < length text.now }
    requires quote { (slice_index text.now start == 34) ≡ true }
    ensures order { IfSome result (λ w. IsWithin w start (length text.now)) }
    ensures found { IfSome result (λ w. from text.now start ≡ word_then (token text.now w) (from text.now w.end)) }
    ensures open { result ≡ None → from text.now start ≡ open_quote start }
{
    match quoted_tail_len(&text[start + 1..]) {
        Some(len) => Some(Word {
            start: start as u32,
            end: (start + 1 + len) as u32,
            quoted: true,
        }),
        None => None,
    }
}

impl<'a> Words<'a> {
    /// A walk over the words of a text of at most 134,217,728 bytes.
    pub fn new(text: &'a [u8]) -> Words<'a>
        requires { length text.now ≤ MAX_DEF_BYTES }
        ensures { result ≡ record { text = text.now; at = 0 } }
    {
        Words { text, at: 0 }
    }

    /// The next word, and none at the end of the text. Where a quoted word doesn't end, the walk answers that fault
    /// for good.
    pub fn next_word(&mut self) -> Result<Option<Word>, TextFault>
        ensures text { self.new.text ≡ self.old.text }
        ensures answer { rest self.old ≡ after self.old.text result (rest self.new) }
        ensures stays { IsOkAnd result (λ o. IsSome o) ⊎ (rest self.new ≡ rest self.old) }
        ensures within { IfOk result (λ o. IfSome o (λ w. (w.start < w.end) × (w.end ≤ length self.old.text))) }
    {
        let start = word_start(self.text, self.at);
        if start == self.text.len() {
            return Ok(None);
        }
        if self.text[start] != b'"' {
            let word = plain_word(self.text, start);
            self.at = word.end as usize;
            return Ok(Some(word));
        }
        match quoted_word(self.text, start) {
            Some(word) => {
                self.at = word.end as usize;
                Ok(Some(word))
            }
            None => Err(TextFault::OpenQuote {
                place: start as u32,
            }),
        }
    }
}
