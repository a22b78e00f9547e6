//! What is found on a journal's disk.
use crate::entry::Entry;
use crate::standing::Standing;

#[derive(Drop)]
pub struct Found {
    /// The place of the gate after the last entry.
    pub gate: u64,
    pub standing: Standing,
    /// Whether bytes follow the gate.
    pub follows: bool,
    pub entries: Vec<Entry>,
}
