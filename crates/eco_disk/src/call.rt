//! A call of a disk.
use std::alloc::{AllocError, Global};
use std::marker::Model;

/// The bytes of a write, seen as a list.
#[derive(Drop)]
pub struct Piece {
    bytes: Vec<u8>,
}

impl Model for Piece {
    ghost use Rattle.std.specs.Prelude.{ℕ, List};

    ghost Value = { List ℕ };

    ghost view = { λ piece. piece.bytes.items };
}

impl Piece {
    ghost use Rattle.std.specs.Prelude.{◌≡◌, IfOk};

    pub(crate) fn of(alloc: Global, bytes: &[u8]) -> Result<Self, AllocError>
        ensures { IfOk result (λ piece. piece ≡ bytes.now) }
    {
        Ok(Piece {
            bytes: Vec::from_slice(alloc, bytes)?,
        })
    }

    pub fn bytes(&self) -> &[u8]
        ensures { result.now ≡ self.now }
    {
        &self.bytes
    }
}

/// A call of a disk.
#[derive(Drop)]
pub enum Call {
    Len,
    /// `len` bytes from the place `at` on.
    Read { at: u64, len: usize },
    /// These bytes, to the place `at`.
    Write { at: u64, piece: Piece },
    /// A cut to this length.
    Cut { len: u64 },
    Sync,
}

/// A call of a disk in memory, as it is kept for its replay.
#[derive(Drop)]
pub enum Attempt {
    /// It was made whole.
    Made(Call),
    /// It was to fail, and changed nothing.
    Failed(Call),
}
