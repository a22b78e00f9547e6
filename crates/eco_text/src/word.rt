//! A word of a text.

use thiserror::Error;

/// Where a word stands in its text: from byte `start` up to byte `end`.
#[derive(Clone, Copy, Debug, Drop, PartialEq, Eq)]
pub struct Word {
    pub start: u32,
    pub end: u32,
    /// The word began with `"`, and its quotes are part of it.
    pub quoted: bool,
}

/// A text that has no list of words.
#[derive(Clone, Copy, Debug, Drop, PartialEq, Eq, Error)]
pub enum TextFault {
    /// A quoted word doesn't end. The place is that of its opening quote.
    #[error("OpenQuote place={place}")]
    OpenQuote { place: u32 },
}
