//! Words and numbers of LEF and DEF texts, and where bytes come from and go to.
//!
//! LEF/DEF 5.8 Language Reference, in the profile of docs/FORMATS.md.
#![tactic(auto)]

ghost use Rattle.eco_text.specs.Splices.{Splices};

mod byte_sink;
mod byte_source;
mod numbers;
mod pieces;
mod schedule;
mod sink;
mod source;
mod word;
mod word_reader;
mod words;

pub use crate::byte_sink::ByteSink;
pub use crate::byte_source::ByteSource;
pub use crate::numbers::{BadNumber, read_i32, read_microns, read_natural, read_number};
pub use crate::pieces::{between, bytes_at, part, write_piece, write_pieces};
pub use crate::sink::Sink;
pub use crate::source::Source;
pub use crate::word::{TextFault, Word};
pub use crate::word_reader::WordReader;
pub use crate::words::Words;
pub use eco_common::{Dir, Failed, Point};

/// A law of words: the words of two parts of a text are those that end in the first, and then those of the second,
/// read in the mode that the first part leaves.
pub fn words_of_two_parts()
    ensures { Splices }
{}
