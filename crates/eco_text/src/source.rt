//! Where bytes come from.

ghost use Rattle.std.specs.Prelude.{ℕ, List, Option};
ghost use Rattle.eco_common.specs.Causes.{HasCause};
ghost use Rattle.eco_text.specs.Streams.{Takes};

use eco_common::Failed;

/// Bytes that are read from front to back.
pub trait Source {
    /// The bytes that are left, where it reports them.
    ghost left: { Self → Option (List ℕ) };

    /// How often a call has failed. It never falls.
    ghost faults: { Self → ℕ };

    /// Puts the next bytes at the front of the piece and says how many. It gives 0 for a piece with room exactly
    /// where nothing is left.
    fn read(&mut self, piece: &mut [u8]) -> Result<usize, Failed>
        ensures bytes { Takes (left self.old) (left self.new) result piece.new }
        ensures cause { HasCause (faults self.old) (faults self.new) result };
}
