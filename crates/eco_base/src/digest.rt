//! The digest of a base's texts, of which the LEF isn't kept.

ghost use Rattle.std.specs.Prelude.{◌≡◌, ◌++◌, List, ℕ};
ghost use Rattle.sha2.specs.Hashers.{Holds256};
ghost use Rattle.eco_base.specs.Digests.{framed, digest_after};

use sha2::{Digest, Sha256};
use std::marker::Model;

/// The SHA-256 hasher after a base's LEF, which may be as long as 64 MB.
#[derive(Drop)]
pub struct HashedLef {
    hasher: Sha256,
}

impl Model for HashedLef {
    ghost use Rattle.sha2.specs.declared.Sha256.{Sha256};
    ghost use Rattle.eco_base.specs.Digests.{HoldsText};

    ghost Value = { Sha256 };

    ghost view = { λ h. h.hasher };

    ghost invariant = { λ h. HoldsText h.hasher };
}

/// Feeds a text after its length.
fn feed(hasher: &mut Sha256, text: &[u8])
    ensures { (fed : List ℕ) → Holds256 hasher.old fed → Holds256 hasher.new (fed ++ framed text.now) }
{
    let length = text.len() as u64;
    hasher.update(length.to_be_bytes().as_slice());
    hasher.update(text);
}

/// The same hasher. It takes no memory.
fn copy(hasher: &Sha256) -> Sha256
    ensures { result ≡ hasher.now }
{
    match hasher.clone() {
        Ok(hasher) => hasher,
        Err(_) => unreachable!(),
    }
}

impl HashedLef {
    /// The hasher after this LEF.
    pub fn after(lef: &[u8]) -> HashedLef
        ensures { Holds256 result (framed lef.now) }
    {
        let mut hasher = Sha256::new();
        feed(&mut hasher, lef);
        HashedLef { hasher }
    }

    /// The SHA-256 digest over the LEF and three more texts, each after its length in eight bytes, greatest first.
    pub fn digest(&self, def: &[u8], functions: &[u8], desk: &[u8]) -> [u8; 32]
        ensures { result ≡ digest_after self.now (framed def.now ++ framed functions.now ++ framed desk.now) }
    {
        let mut hasher = copy(&self.hasher);
        feed(&mut hasher, def);
        feed(&mut hasher, functions);
        feed(&mut hasher, desk);
        hasher.finalize()
    }
}
