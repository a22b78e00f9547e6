//! What a base keeps of its texts for their digest.

use crate::digest::HashedLef;

/// What a base keeps, beside its DEF, for the digest of its texts.
#[derive(Drop)]
pub struct Sources {
    pub lef: HashedLef,
    pub functions: Vec<u8>,
    pub desk: Vec<u8>,
}
