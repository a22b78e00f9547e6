//! The places and bytes of a journal. Another version of the layout has another magic.

/// The header's magic, after its gate.
pub const MAGIC: [u8; 8] = *b"ECOJRNL1";

/// The place of the header's gate.
pub const HEADER_GATE: u64 = 0;

/// The place of the first entry's gate.
pub const FIRST_GATE: u64 = 41;

/// How many bytes the header has with its gate.
pub const HEADER_BYTES: usize = 41;

/// How many bytes of length stand between an entry's gate and its payload.
pub const LENGTH_BYTES: u64 = 4;

/// The longest payload.
pub const LONGEST: u32 = 16_777_216;

pub const SHUT: u8 = 0;

pub const OPEN: u8 = 1;
