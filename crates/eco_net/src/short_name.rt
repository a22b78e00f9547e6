//! Names of a few bytes, kept in place.

use std::hash::{Hash, Hasher};
use std::marker::Model;

/// A name of at most 15 bytes, which lie in the value itself: it takes no memory. The bytes past its end are 0.
#[derive(Clone, Copy)]
pub(crate) struct ShortName {
    len: u8,
    bytes: [u8; 15],
}

impl Model for ShortName {
    ghost use Rattle.std.specs.Prelude.{ℕ, ◌≡◌, ◌≤◌, ◌-◌, List, ◌++◌, length, take, drop, replicate};
    ghost use Rattle.std.proofs.Common.{◌∙◌, ap, sym, take-append-drop, length-take-le};

    ghost Value = { List ℕ };

    ghost view = { λ s. take s.len s.bytes };

    ghost invariant = { λ s. (s.len ≤ length s.bytes) × (drop s.len s.bytes ≡ replicate (15 - s.len) 0) };

    ghost inverse = { λ name. record { len = length name; bytes = name ++ replicate (15 - length name) 0 } };

    ghost inverse_ok = { λ s h i. record {
      len = length-take-le s.len s.bytes h.0 i;
      bytes = (ap (λ n. take s.len s.bytes ++ replicate (15 - n) 0) (length-take-le s.len s.bytes h.0) ∙ ap (λ rest. take s.len s.bytes ++ rest) (sym h.1) ∙ take-append-drop s.len s.bytes) i;
    } };
}

impl ShortName {
    ghost use Rattle.std.specs.Prelude.{◌≡◌};
    ghost use Rattle.eco_net.specs.Index.{short_of};

    /// The name in place, or none if it has more than 15 bytes.
    pub(crate) fn of(name: &[u8]) -> Option<ShortName>
        ensures { result ≡ short_of name.now }
    {
        let len = name.len();
        if len > 15 {
            return None;
        }
        let mut bytes = [0; 15];
        bytes[..len].copy_from_slice(name);
        Some(ShortName {
            len: len as u8,
            bytes,
        })
    }
}

impl PartialEq for ShortName {
    ghost use Rattle.std.specs.Prelude.{nat_eq};
    ghost use Rattle.std.specs.Cmp.{partial_equiv_from_equiv};
    ghost use Rattle.std.specs.Cmp.Lexicographic.{pointwise, nat_list_eq_equiv};

    ghost eq = { pointwise nat_eq };

    ghost laws = { partial_equiv_from_equiv nat_list_eq_equiv };

    fn eq(&self, other: &ShortName) -> bool {
        self.len == other.len && self.bytes == other.bytes
    }
}

impl Eq for ShortName {
    ghost use Rattle.std.specs.Cmp.Lexicographic.{nat_list_eq_equiv};

    ghost laws = { nat_list_eq_equiv };
}

/// All fifteen bytes are hashed at once.
impl Hash for ShortName {
    ghost use Rattle.std.specs.Prelude.{◌-◌, [], ◌∷◌, ◌++◌, length, replicate};
    ghost use Rattle.std.proofs.Common.{rules};
    ghost use Rattle.std.specs.Cmp.Rules.{hashing};

    ghost hash_input = { λ name. (name ++ replicate (15 - length name) 0) ∷ [] };

    ghost respects_eq = { Prim.search (hashing, rules) };

    fn hash<H: Hasher>(&self, state: &mut H) {
        state.write(&self.bytes);
    }
}
