//! What a phase of the matching reads.
use crate::table::Table;

/// A phase that matches one gate more.
#[derive(Clone, Copy)]
pub struct Phase<'a> {
    pub table: Table<'a>,
    /// The place of the gate that has each spare, or 0 where the spare is free.
    pub owner: &'a [u64],
    /// The place of the gate that is to be matched.
    pub root: usize,
}
