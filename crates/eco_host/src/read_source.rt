//! A source over a reader of the system.

use eco_common::Failed;
use eco_text::Source;
use std::io::Read;

/// Reads, and counts the reads that failed. It tells nothing of its bytes.
#[derive(Drop)]
pub struct ReadSource<R: Read + Drop> {
    reader: R,
    pub faults: u64,
}

impl<R: Read + Drop> ReadSource<R> {
    ghost use Rattle.std.specs.Prelude.{◌≡◌};

    pub fn new(reader: R) -> ReadSource<R>
        ensures { result.faults ≡ 0 }
    {
        ReadSource { reader, faults: 0 }
    }
}

impl<R: Read + Drop> Source for ReadSource<R> {
    ghost use Rattle.std.specs.Prelude.{None};

    ghost left = { λ s. None };

    ghost faults = { λ s. s.faults };

    fn read(&mut self, piece: &mut [u8]) -> Result<usize, Failed> {
        match self.reader.read(piece) {
            Ok(count) => Ok(count),
            Err(_) => {
                self.faults = self.faults.saturating_add(1);
                Err(Failed)
            }
        }
    }
}
