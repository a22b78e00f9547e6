//! A disk as a journal sees it, and a disk in memory.
//!
//! What a crash may leave is part of the trait: each call says which images its moments may have. The disk in memory
//! keeps the list of its calls, from which its images at every moment follow, and fails at the calls that it is given.
#![tactic(auto)]

mod buffer;
mod call;
mod contents;
mod counter;
mod disk;
mod memory_disk;
mod synced;
mod tape;

pub use call::{Attempt, Call, Piece};
pub use disk::Disk;
pub use eco_common::Failed;
pub use memory_disk::MemoryDisk;

#[cfg(test)]
mod tests;
