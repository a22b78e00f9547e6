//! A lock that keeps the history of what its holders added.
//!
//! A [`Turn`] keeps one value that stands for a list of entries, each with the number of the pass that made it. A
//! thread with a [`Pass`] enters, has the value for as long as it likes, may add entries of its own at the end of the
//! list, and leaves. What a pass finds begins with what it saw when it last left, and its own entries stand there.
//!
//! It is a ticket lock: a table of three words and one slot, in which each pass is a seat.
//!
//! | Step | On | What the seat learns or gives |
//! |---|---|---|
//! | draw | the word `TICKET`, plus 1 | its ticket |
//! | look | the word `SERVING`, read | whether its ticket is served; then the slot is its own, and the list in it is the history |
//! | take | the slot, swapped with `None` | the value |
//! | put | the slot, swapped with the value | the value is in the slot again |
//! | note | the word `COUNT`, swapped with the length | the value's list becomes the history |
//! | pass on | the word `SERVING`, plus 1 | the ticket is spent, and the slot is at home |
//! | split | none changes | a new seat, with the next number |
//! | join | none changes | two seats become one, which knows what both knew |
//!
//! Between any two steps the table keeps the rule `IsRuled`, in `specs/Rule.antt`.
#![tactic(auto)]

mod held;
mod kept;
mod pass;
mod plays;
#[cfg(test)]
mod tests;
mod turn;
mod view;

pub use eco_common::Memory;
pub use held::Held;
pub use kept::Kept;
pub use pass::Pass;
pub use turn::Turn;
