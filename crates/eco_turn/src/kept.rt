//! What a turn keeps.
ghost use Rattle.std.specs.Prelude.{◌≡◌, ℕ, List, length};

/// A value that stands for a list of entries, each with the number of the pass that made it, and for a fixed part
/// beside the list.
pub trait Kept {
    /// What an entry says. Proofs alone speak of it.
    type Entry;

    /// What no holder of the value changes. Proofs alone speak of it.
    type Fixed;

    ghost entries: { Self → List (ℕ × Self.Entry) };

    ghost fixed: { Self → Self.Fixed };

    /// The length of the list.
    fn length(&self) -> u64
        ensures { result ≡ length (entries self.now) };
}
