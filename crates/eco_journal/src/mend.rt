//! Taking an unfinished entry away.
ghost use Rattle.std.specs.Prelude.{◌≡◌, ◌+◌, ◌≤◌, List, ℕ, length, OnOk, OnErr, IsOk, IsTrue, IsFalse};
ghost use Rattle.eco_disk.specs.Disk.{StaysTold, OnTold};
ghost use Rattle.eco_common.specs.Causes.{HasCause};
ghost use Rattle.eco_disk.specs.Calls.{MakesInOrder};
ghost use Rattle.eco_journal.specs.Calls.{mend_calls, settle_calls, shut_calls, crop_calls};
ghost use Rattle.eco_journal.specs.Journal.{disk_of, gate_of, is_broken};
ghost use Rattle.eco_journal.specs.Sound.{Sound, Mends};
ghost use Rattle.eco_journal.specs.declared.standing.Standing.TheVariants.{Settled, Behind, AtGate};

use crate::journal::Journal;
use crate::kept::{cut_kept, write_kept};
use crate::layout::SHUT;
use crate::standing::Standing;
use eco_disk::{Disk, Failed};

impl<D: Disk> Journal<D> {
    /// Takes an unfinished entry away. From Ok on no fault stands; where none stands, nothing is done.
    pub fn mend(&mut self) -> Result<(), Failed>
        // On an honest disk, by a journal that is sound.
        ensures crash { (digest : List ℕ) (payloads : List (List ℕ)) (last : List ℕ)
            → Sound digest payloads last self.old
            → Mends digest payloads last self.old self.new result }

        // On any disk.
        ensures whole { OnOk result (IsFalse (is_broken self.new)) }
        ensures broken { OnErr result (IsTrue (is_broken self.new)) }
        ensures idle { IsFalse (is_broken self.old) → IsOk result × (self.new ≡ self.old) }
        ensures gate { gate_of self.new ≡ gate_of self.old }
        ensures calls { MakesInOrder (D.calls (disk_of self.old)) (D.calls (disk_of self.new))
            (mend_calls self.old) result }
        ensures told { StaysTold (D.contents (disk_of self.old)) (D.contents (disk_of self.new)) }
        ensures cause { HasCause (D.faults (disk_of self.old))
            (D.faults (disk_of self.new)) result }
    {
        self.settle(true)
    }

    // Takes away what stands at the gate and after it. Nothing is after it where `follows` is false.
    pub(crate) fn settle(&mut self, follows: bool) -> Result<(), Failed>
        requires ends { self.old.standing ≡ AtGate → IsFalse follows
            → OnTold (D.contents self.old.disk) (λ bytes. length bytes ≤ self.old.gate + 1) }
        ensures crash { (digest : List ℕ) (payloads : List (List ℕ)) (last : List ℕ)
            → Sound digest payloads last self.old
            → Mends digest payloads last self.old self.new result }
        ensures whole { OnOk result (self.new.standing ≡ Settled) }
        ensures broken { OnErr result (IsTrue (is_broken self.new)) }
        ensures idle { IsFalse (is_broken self.old) → IsOk result × (self.new ≡ self.old) }
        ensures gate { self.new.gate ≡ self.old.gate }
        ensures calls { MakesInOrder (D.calls self.old.disk) (D.calls self.new.disk)
            (settle_calls self.old.standing self.old.gate follows) result }
        ensures told { StaysTold (D.contents self.old.disk) (D.contents self.new.disk) }
        ensures cause { HasCause (D.faults self.old.disk) (D.faults self.new.disk) result }
    {
        match self.standing {
            Standing::Settled => Ok(()),
            Standing::Behind => self.crop(),
            Standing::AtGate => self.shut_and_crop(follows),
        }
    }

    fn shut_and_crop(&mut self, follows: bool) -> Result<(), Failed>
        requires at_gate { self.old.standing ≡ AtGate }
        requires ends { IsFalse follows
            → OnTold (D.contents self.old.disk) (λ bytes. length bytes ≤ self.old.gate + 1) }
        ensures crash { (digest : List ℕ) (payloads : List (List ℕ)) (last : List ℕ)
            → Sound digest payloads last self.old
            → Mends digest payloads last self.old self.new result }
        ensures whole { OnOk result (self.new.standing ≡ Settled) }
        ensures broken { OnErr result (IsTrue (is_broken self.new)) }
        ensures gate { self.new.gate ≡ self.old.gate }
        ensures calls { MakesInOrder (D.calls self.old.disk) (D.calls self.new.disk)
            (settle_calls AtGate self.old.gate follows) result }
        ensures told { StaysTold (D.contents self.old.disk) (D.contents self.new.disk) }
        ensures cause { HasCause (D.faults self.old.disk) (D.faults self.new.disk) result }
    {
        self.shut()?;
        if follows {
            return self.crop();
        }
        self.standing = Standing::Settled;
        Ok(())
    }

    // Closes the gate of an unfinished entry.
    fn shut(&mut self) -> Result<(), Failed>
        requires { self.old.standing ≡ AtGate }
        ensures crash { (digest : List ℕ) (payloads : List (List ℕ)) (last : List ℕ)
            → Sound digest payloads last self.old
            → Mends digest payloads last self.old self.new result }
        ensures shut { OnOk result (self.new.standing ≡ Behind) }
        ensures broken { OnErr result (self.new.standing ≡ AtGate) }
        ensures gate { self.new.gate ≡ self.old.gate }
        ensures calls { MakesInOrder (D.calls self.old.disk) (D.calls self.new.disk)
            (shut_calls self.old.gate) result }
        ensures told { StaysTold (D.contents self.old.disk) (D.contents self.new.disk) }
        ensures cause { HasCause (D.faults self.old.disk) (D.faults self.new.disk) result }
    {
        write_kept(&mut self.disk, self.gate, &[SHUT])?;
        self.standing = Standing::Behind;
        Ok(())
    }

    // Cuts what stands after the closed gate.
    fn crop(&mut self) -> Result<(), Failed>
        requires { self.old.standing ≡ Behind }
        ensures crash { (digest : List ℕ) (payloads : List (List ℕ)) (last : List ℕ)
            → Sound digest payloads last self.old
            → Mends digest payloads last self.old self.new result }
        ensures whole { OnOk result (self.new.standing ≡ Settled) }
        ensures broken { OnErr result (self.new.standing ≡ Behind) }
        ensures gate { self.new.gate ≡ self.old.gate }
        ensures calls { MakesInOrder (D.calls self.old.disk) (D.calls self.new.disk)
            (crop_calls self.old.gate) result }
        ensures told { StaysTold (D.contents self.old.disk) (D.contents self.new.disk) }
        ensures cause { HasCause (D.faults self.old.disk) (D.faults self.new.disk) result }
    {
        cut_kept(&mut self.disk, self.gate + 1)?;
        self.standing = Standing::Settled;
        Ok(())
    }
}
