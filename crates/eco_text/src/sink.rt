//! Where bytes go to.

ghost use Rattle.std.specs.Prelude.{◌≡◌, ℕ, List, Option};
ghost use Rattle.eco_common.specs.Causes.{HasCause};
ghost use Rattle.eco_text.specs.Writing.{WritesAll};

use eco_common::Failed;

/// Takes bytes one piece after another.
pub trait Sink {
    /// The bytes that were taken, where it reports them.
    ghost taken: { Self → Option (List ℕ) };

    /// How often a call has failed. It never falls.
    ghost faults: { Self → ℕ };

    /// Takes the whole piece. After a failure it took a front of it.
    fn write_all(&mut self, piece: &[u8]) -> Result<(), Failed>
        ensures bytes { WritesAll (taken self.old) (taken self.new) result piece.now }
        ensures cause { HasCause (faults self.old) (faults self.new) result };

    /// Nothing more will be written. Failed or not, the bytes that were taken stay.
    fn finish(&mut self) -> Result<(), Failed>
        ensures bytes { taken self.new ≡ taken self.old }
        ensures cause { HasCause (faults self.old) (faults self.new) result };
}
