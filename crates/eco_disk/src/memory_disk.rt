//! A disk in memory.
ghost use Rattle.std.specs.Prelude.{◌≡◌, ◌≤◌, ◌+◌, [], ◌∷◌, length, slice_range, take, IfOk, OnOk};
ghost use Rattle.eco_disk.specs.Disk.{OnTold, GoesOn, written, Torn, Cut, Same, Follows, IsKept};
ghost use Rattle.eco_common.specs.Causes.{HasCause};
ghost use Rattle.eco_disk.specs.Calls.{Makes};
ghost use Rattle.eco_disk.specs.declared.call.Call.TheVariants.{Len, Read, Write, Sync};
ghost use Rattle.eco_disk.specs.declared.call.Call.TheVariants as call;

use crate::call::{Attempt, Call};
use crate::contents::Contents;
use crate::counter::Counter;
use crate::disk::Disk;
use crate::tape::Tape;
use eco_common::Failed;

/// A disk in memory, which fails at the calls that it is given.
///
/// It keeps what it had at first and each call, and from these its images at every moment follow. A call that is to
/// fail changes nothing, and neither does one that finds no memory: that counts as its fault.
#[derive(Drop)]
pub struct MemoryDisk {
    tape: Tape,
    counter: Counter,
}

impl MemoryDisk {
    ghost use Rattle.eco_disk.specs.MemoryDisk.{bytes_of, synced_of, first_bytes, attempts_of, faults_of, starved_of, failing_of, number_of};

    /// A disk with these bytes, all of them kept. The calls with these numbers fail, counted from 1.
    pub fn new(bytes: Vec<u8>, failing: Vec<u64>) -> Self
        ensures bytes { bytes_of result ≡ bytes.items }
        ensures synced { synced_of result ≡ bytes.items }
        ensures first { first_bytes result ≡ bytes.items }
        ensures failing { failing_of result ≡ failing.items }
        ensures calls { attempts_of result ≡ [] }
        ensures number { number_of result ≡ 0 }
        ensures faults { faults_of result ≡ 0 }
        ensures starved { starved_of result ≡ 0 }
    {
        let alloc = *bytes.allocator();
        let tape = Tape {
            contents: Contents::of(bytes),
            calls: Vec::new(alloc),
        };
        let counter = Counter {
            failing,
            asked: 0,
            faults: 0,
            starved: 0,
        };
        MemoryDisk { tape, counter }
    }

    /// What a read gives.
    pub fn bytes(&self) -> &[u8]
        ensures { result.now ≡ bytes_of self.now }
    {
        &self.tape.contents.bytes
    }

    /// What the last sync that succeeded kept.
    pub fn synced(&self) -> &[u8]
        ensures { result.now ≡ synced_of self.now }
    {
        self.tape.contents.kept()
    }

    /// Its calls, and whether they were made; those aside that found no memory.
    pub fn calls(&self) -> &[Attempt]
        ensures { result.now ≡ attempts_of self.now }
    {
        &self.tape.calls
    }

    /// How many calls found no memory. At its greatest it stays.
    pub fn starved(&self) -> u64
        ensures { result ≡ starved_of self.now }
    {
        self.counter.starved
    }
}

impl Disk for MemoryDisk {
    ghost use Rattle.eco_disk.specs.MemoryDisk.{first_bytes, faults_of, calls_of, contents, moment, image, AnswersCall};
    ghost use Rattle.eco_disk.specs.Images.{reads_now};

    ghost contents = { contents };

    ghost moment = { moment };

    ghost image = { image };

    ghost faults = { faults_of };

    ghost calls = { calls_of };

    ghost reads_an_image = { λ d bytes told. reads_now d.tape.calls.items (first_bytes d) d.tape.contents.bytes.items bytes d.tape.replayed told };

    fn count(&self) -> u64
        ensures { result ≡ faults_of self.now }
    {
        self.counter.faults
    }

    fn len(&mut self) -> Result<u64, Failed>
        ensures answers { AnswersCall Len self.old self.new result }
        ensures calls { Makes (calls_of self.old) (calls_of self.new) (Len ∷ []) }
        ensures len { IfOk result (λ n. OnTold (contents self.old) (λ bytes. n ≡ length bytes)) }
        ensures contents { contents self.new ≡ contents self.old }
        ensures crash { Follows moment image self.old self.new Same }
        ensures cause { HasCause (faults_of self.old) (faults_of self.new) result }
    {
        let injected = self.counter.next();
        let outcome = self.tape.look(injected, Call::Len);
        self.counter.tell(outcome)?;
        Ok(self.tape.contents.bytes.len() as u64)
    }

    fn read(&mut self, at: u64, piece: &mut [u8]) -> Result<(), Failed>
        requires { OnTold (contents self.old) (λ bytes. at + length piece.old ≤ length bytes) }
        ensures answers { AnswersCall (Read at (length piece.old)) self.old self.new result }
        ensures calls { Makes (calls_of self.old) (calls_of self.new) (Read at (length piece.old) ∷ []) }
        ensures read { OnOk result
            (OnTold (contents self.old)
            (λ bytes. piece.new ≡ slice_range bytes at (at + length piece.old))) }
        ensures contents { contents self.new ≡ contents self.old }
        ensures crash { Follows moment image self.old self.new Same }
        ensures cause { HasCause (faults_of self.old) (faults_of self.new) result }
    {
        let injected = self.counter.next();
        let len = piece.len();
        let outcome = self.tape.look(injected, Call::Read { at, len });
        self.counter.tell(outcome)?;
        let at = at as usize;
        piece.copy_from_slice(&self.tape.contents.bytes[at..at + len]);
        Ok(())
    }

    fn write_at(&mut self, at: u64, piece: &[u8]) -> Result<(), Failed>
        requires { OnTold (contents self.old) (λ bytes. at ≤ length bytes) }
        ensures answers { AnswersCall (Write at piece.now) self.old self.new result }
        ensures calls { Makes (calls_of self.old) (calls_of self.new) (Write at piece.now ∷ []) }
        ensures written { OnOk result
            (GoesOn (contents self.old) (contents self.new)
            (λ old new. new ≡ written at piece.now old)) }
        ensures contents { GoesOn (contents self.old) (contents self.new)
            (Torn at (length piece.now)) }
        ensures crash { Follows moment image self.old self.new (Torn at (length piece.now)) }
        ensures cause { HasCause (faults_of self.old) (faults_of self.new) result }
    {
        let injected = self.counter.next();
        let outcome = self.tape.write(injected, at, piece);
        self.counter.tell(outcome)
    }

    fn cut(&mut self, len: u64) -> Result<(), Failed>
        requires { OnTold (contents self.old) (λ bytes. len ≤ length bytes) }
        ensures answers { AnswersCall (call.Cut len) self.old self.new result }
        ensures calls { Makes (calls_of self.old) (calls_of self.new) (call.Cut len ∷ []) }
        ensures cut { OnOk result
            (GoesOn (contents self.old) (contents self.new) (λ old new. new ≡ take len old)) }
        ensures contents { GoesOn (contents self.old) (contents self.new) (Cut len) }
        ensures crash { Follows moment image self.old self.new (Cut len) }
        ensures cause { HasCause (faults_of self.old) (faults_of self.new) result }
    {
        let injected = self.counter.next();
        let outcome = self.tape.cut(injected, len);
        self.counter.tell(outcome)
    }

    fn sync(&mut self) -> Result<(), Failed>
        ensures answers { AnswersCall Sync self.old self.new result }
        ensures calls { Makes (calls_of self.old) (calls_of self.new) (Sync ∷ []) }
        ensures kept { OnOk result (IsKept (contents self.new) (image self.new (moment self.new))) }
        ensures contents { contents self.new ≡ contents self.old }
        ensures crash { Follows moment image self.old self.new Same }
        ensures cause { HasCause (faults_of self.old) (faults_of self.new) result }
    {
        let injected = self.counter.next();
        let outcome = self.tape.sync(injected);
        self.counter.tell(outcome)
    }
}
