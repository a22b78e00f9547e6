//! What a matching answers.
/// At most this many gates are matched.
pub const MAX_GATES: usize = 128;

/// A mapping with worths and prices, or a short set. An entry for each gate, of which those of the
/// rows' gates are set: after `Matched` in the first three fields, after `Short` in the last.
#[derive(Drop)]
pub struct MatchOut {
    /// The spare that the gate gets.
    pub spare: [u32; MAX_GATES],
    /// What the gate is worth: the cost of its spare and that spare's price.
    pub worth: [i128; MAX_GATES],
    /// The price of the gate's spare. Every spare that no gate gets has price 0.
    pub price: [i128; MAX_GATES],
    /// Whether the gate is in the short set.
    pub short: [bool; MAX_GATES],
}

/// Which of the two a matching found.
#[derive(Clone, Copy, Debug, PartialEq, Eq)]
pub enum Matching {
    /// A mapping that costs least.
    Matched,
    /// A set of gates with fewer candidates than members, so that there is no mapping.
    Short,
}

impl MatchOut {
    ghost use Rattle.eco_match.specs.MatchOut.{IsBlank};

    /// An answer to be written over.
    pub fn new() -> MatchOut
        ensures { IsBlank result }
    {
        MatchOut {
            spare: [0; MAX_GATES],
            worth: [0; MAX_GATES],
            price: [0; MAX_GATES],
            short: [false; MAX_GATES],
        }
    }
}
