//! A stretch of a text.

/// The bytes of the text from `start` up to `end`, which new bytes replace, up to `upto` of the overlay's own.
#[derive(Clone, Copy, Debug, Drop, PartialEq, Eq)]
pub struct Stretch {
    pub start: u32,
    pub end: u32,
    pub upto: usize,
}
