//! Which spares of the stock are free.

ghost use Rattle.std.specs.Prelude.{◌≡◌, ℕ, Bool};

/// A record of which spares of the stock are free.
pub trait FreeStock {
    /// Whether the spare of a number is free.
    ghost free: { Self → ℕ → Bool };

    /// Whether the spare of this number in the stock is free. Each number has an answer.
    fn is_free(&self, spare: u32) -> bool
        ensures { result ≡ free self.now spare };
}
