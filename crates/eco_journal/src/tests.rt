//! What the clauses don't say: the bytes of a whole journal, and that each call can succeed.
use super::*;
use eco_disk::{Attempt, Call, Disk, MemoryDisk};
use std::alloc::{AllocError, Global};

mod failing;
mod images;
mod layout;
mod script;

const DIGEST: [u8; 32] =
    *b"\x00\x01\x02\x03\x04\x05\x06\x07\x08\x09\x0a\x0b\x0c\x0d\x0e\x0f\x10\x11\x12\x13\x14\x15\x16\x17\x18\x19\x1a\x1b\x1c\x1d\x1e\x1f";

// An open header of that digest, without the gate after it.
const HEADER: [u8; 41] =
    *b"\x01ECOJRNL1\x00\x01\x02\x03\x04\x05\x06\x07\x08\x09\x0a\x0b\x0c\x0d\x0e\x0f\x10\x11\x12\x13\x14\x15\x16\x17\x18\x19\x1a\x1b\x1c\x1d\x1e\x1f";

// A disk with these bytes after such a header.
fn headed(alloc: Global, tail: &[u8], failing: &[u64]) -> Result<MemoryDisk, AllocError> {
    let mut bytes = Vec::from_slice(alloc, &HEADER)?;
    bytes.extend_from_slice(tail)?;
    Ok(MemoryDisk::new(bytes, Vec::from_slice(alloc, failing)?))
}

// The entries that bytes open to, each with a blank after it; None where they aren't opened.
fn opens_to(alloc: Global, bytes: &[u8]) -> Result<Option<Vec<u8>>, AllocError> {
    let disk = MemoryDisk::new(Vec::from_slice(alloc, bytes)?, Vec::new(alloc));
    let Ok((_, entries)) = Journal::start(alloc, disk, DIGEST) else {
        return Ok(None);
    };
    let mut all = Vec::new(alloc);
    for entry in entries.iter() {
        all.extend_from_slice(entry.bytes())?;
        all.extend_from_slice(b" ")?;
    }
    Ok(Some(all))
}

fn is_some_of(found: &Option<Vec<u8>>, allowed: &[&[u8]]) -> bool {
    match found {
        Some(bytes) => {
            let bytes = bytes.as_slice();
            allowed.iter().any(|&entries| entries == bytes)
        }
        None => false,
    }
}
