//! A gate's place in a master.

use crate::feed::Feed;

/// An output of a master by its number, and what each of the master's inputs is put on. Places past the master's inputs
/// are `Zero`.
#[derive(Clone, Copy, Debug, Drop, PartialEq, Eq)]
pub struct Embedding {
    pub output: u8,
    pub pins: [Feed; 6],
}
