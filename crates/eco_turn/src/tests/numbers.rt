//! What the turn keeps.
ghost use Rattle.std.specs.Prelude.{◌≡◌, [], ◌∷◌, ◌++◌, MatchBool};

use crate::Kept;
use std::alloc::Global;

/// Numbers, each with the pass that added it, under a label.
#[derive(Drop)]
pub struct Numbers {
    pub label: u64,
    pub items: Vec<(u32, u64)>,
}

impl Kept for Numbers {
    type Entry = u64;

    type Fixed = u64;

    ghost entries = { λ n. n.items.items };

    ghost fixed = { λ n. n.label };

    fn length(&self) -> u64 {
        self.items.len() as u64
    }
}

impl Numbers {
    pub fn new(alloc: Global, label: u64) -> Numbers
        ensures { (result.label ≡ label) × (result.items.items ≡ []) }
    {
        Numbers {
            label,
            items: Vec::new(alloc),
        }
    }

    /// Whether there was memory for it.
    pub fn add(&mut self, pass: u32, number: u64) -> bool
        ensures items { MatchBool
            result
            (self.new.items.items ≡ self.old.items.items ++ (pass, number) ∷ [])
            (self.new.items.items ≡ self.old.items.items) }
        ensures label { self.new.label ≡ self.old.label }
    {
        self.items.push((pass, number)).is_ok()
    }
}
