//! What stands on a journal's disk after the last entry.

/// What stands after the last entry, as far as the journal knows.
#[derive(Clone, Copy, Debug, PartialEq, Eq)]
pub enum Standing {
    /// A closed gate, and no more.
    Settled,
    /// A closed gate, and some of an unfinished entry.
    Behind,
    /// An unfinished entry, whole, after a gate that a write was begun at.
    AtGate,
}
