//! A disk as a journal sees it: what a read gives, what a crash may leave, and how often it has failed.
ghost use Rattle.std.specs.Prelude.{◌≡◌, ◌≤◌, ◌+◌, [], ◌∷◌, List, ℕ, Option, Some, length, slice_range, take, IfOk, OnOk};
ghost use Rattle.eco_disk.specs.Disk.{OnTold, GoesOn, written, Torn, Cut, Same, Follows, IsKept};
ghost use Rattle.eco_common.specs.Causes.{HasCause};
ghost use Rattle.eco_disk.specs.Calls.{Makes};
ghost use Rattle.eco_disk.specs.declared.call.Call.{Call};
ghost use Rattle.eco_disk.specs.declared.call.Call.TheVariants.{Len, Read, Write, Sync};
ghost use Rattle.eco_disk.specs.declared.call.Call.TheVariants as call;

use eco_common::Failed;

/// One file's worth of bytes that outlast a crash once they are synced.
///
/// A disk that reports its contents promises all that its clauses say of them. One that can't know, as a file, reports
/// nothing (`contents` is None, the clock stands still), and then the clauses bind its count alone.
pub trait Disk {
    /// What a read gives, where the disk reports it. No call makes an honest disk dishonest, or a dishonest one honest.
    ghost contents: { Self → Option (List ℕ) };

    /// The clock of moments.
    ghost moment: { Self → ℕ };

    /// What a crash at that moment may leave.
    ghost image: { Self → ℕ → List ℕ → Type 0 };

    /// How often the disk has failed. At its greatest it stands still.
    ghost faults: { Self → ℕ };

    /// Its calls in order, failed ones too, where the disk reports them.
    ghost calls: { Self → Option (List Call) };

    /// How often the disk has failed.
    fn count(&self) -> u64
        ensures { result ≡ faults self.now };

    /// How many bytes there are.
    fn len(&mut self) -> Result<u64, Failed>
        ensures len { IfOk result (λ n. OnTold (contents self.old) (λ bytes. n ≡ length bytes)) }
        ensures contents { contents self.new ≡ contents self.old }
        ensures crash { Follows moment image self.old self.new Same }
        ensures calls { Makes (calls self.old) (calls self.new) (Len ∷ []) }
        ensures cause { HasCause (faults self.old) (faults self.new) result };

    /// Reads as many bytes as the piece has.
    fn read(&mut self, at: u64, piece: &mut [u8]) -> Result<(), Failed>
        requires { OnTold (contents self.old) (λ bytes. at + length piece.old ≤ length bytes) }
        ensures read { OnOk result
            (OnTold (contents self.old)
            (λ bytes. piece.new ≡ slice_range bytes at (at + length piece.old))) }
        ensures contents { contents self.new ≡ contents self.old }
        ensures crash { Follows moment image self.old self.new Same }
        ensures calls { Makes (calls self.old) (calls self.new) (Read at (length piece.old) ∷ []) }
        ensures cause { HasCause (faults self.old) (faults self.new) result };

    /// Writes a piece over what is there, and beyond its end. A write that fails may have been made whole, in part or
    /// not at all.
    fn write_at(&mut self, at: u64, piece: &[u8]) -> Result<(), Failed>
        requires { OnTold (contents self.old) (λ bytes. at ≤ length bytes) }
        ensures written { OnOk result
            (GoesOn (contents self.old) (contents self.new)
            (λ old new. new ≡ written at piece.now old)) }
        ensures contents { GoesOn (contents self.old) (contents self.new)
            (Torn at (length piece.now)) }
        ensures crash { Follows moment image self.old self.new (Torn at (length piece.now)) }
        ensures calls { Makes (calls self.old) (calls self.new) (Write at piece.now ∷ []) }
        ensures cause { HasCause (faults self.old) (faults self.new) result };

    /// Cuts what stands after a length. A cut that fails may have been made whole, in part or not at all.
    fn cut(&mut self, len: u64) -> Result<(), Failed>
        requires { OnTold (contents self.old) (λ bytes. len ≤ length bytes) }
        ensures cut { OnOk result
            (GoesOn (contents self.old) (contents self.new) (λ old new. new ≡ take len old)) }
        ensures contents { GoesOn (contents self.old) (contents self.new) (Cut len) }
        ensures crash { Follows moment image self.old self.new (Cut len) }
        ensures calls { Makes (calls self.old) (calls self.new) (call.Cut len ∷ []) }
        ensures cause { HasCause (faults self.old) (faults self.new) result };

    /// Keeps what a read gives: from Ok on a crash leaves nothing else.
    fn sync(&mut self) -> Result<(), Failed>
        ensures kept { OnOk result (IsKept (contents self.new) (image self.new (moment self.new))) }
        ensures contents { contents self.new ≡ contents self.old }
        ensures crash { Follows moment image self.old self.new Same }
        ensures calls { Makes (calls self.old) (calls self.new) (Sync ∷ []) }
        ensures cause { HasCause (faults self.old) (faults self.new) result };

    /// What a read gives is one of the images.
    ghost reads_an_image: { (disk : Self) (bytes : List ℕ) → contents disk ≡ Some bytes → image disk (moment disk) bytes };
}
