//! The clauses of a top pin.

use eco_common::Dir;
use eco_text::Word;

/// A clause, or a word that is passed over.
#[derive(Clone, Copy, Debug, Drop, PartialEq, Eq)]
pub enum PinClause {
    Net(Word),
    Direction(Dir),
    /// Whether its word is POWER or GROUND.
    Use(bool),
    Other,
}

/// The first clause of each kind.
#[derive(Clone, Copy, Debug, Drop, PartialEq, Eq)]
pub struct PinClauses {
    pub net: Option<Word>,
    pub dir: Option<Dir>,
    pub supply: Option<bool>,
}
