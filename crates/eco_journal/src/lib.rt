//! A list of entries on a disk: what was acknowledged is there after a crash at any moment.
//!
//! Byte 0 is the gate of the header, which has the magic `ECOJRNL1` and the digest of the base; byte 41 is the gate of
//! the first entry. An entry is its gate, four bytes of length, greatest first, and its payload. A gate is open where it
//! is 1, and the entries end at the first that isn't.
#![tactic(auto)]

mod append;
mod entry;
mod faults;
mod found;
mod header;
mod journal;
mod kept;
mod laws;
mod layout;
mod look;
mod mend;
mod reading;
mod standing;
mod start;

pub use entry::Entry;
pub use faults::{AppendFault, JournalFault};
pub use journal::Journal;
pub use laws::{
    bytes_follow_the_layout, entries_have_no_bad_record, one_gate_ends_the_entries,
    runs_follow_one_another, runs_of_calls_follow_one_another, whole_bytes_have_their_base,
};

#[cfg(test)]
mod tests;
