//! A sink over a writer of the system.

use eco_common::Failed;
use eco_text::Sink;
use std::io::Write;

/// Writes, and counts the calls that failed. It tells nothing of its bytes.
#[derive(Drop)]
pub struct WriteSink<W: Write + Drop> {
    writer: W,
    pub faults: u64,
}

impl<W: Write + Drop> WriteSink<W> {
    ghost use Rattle.std.specs.Prelude.{◌≡◌};

    pub fn new(writer: W) -> WriteSink<W>
        ensures { result.faults ≡ 0 }
    {
        WriteSink { writer, faults: 0 }
    }
}

/// Writes the whole piece, or tells that it didn't: a writer that takes nothing has failed.
fn write_whole<W: Write>(writer: &mut W, piece: &[u8]) -> bool {
    let mut at = 0;
    while at < piece.len() {
        match writer.write(&piece[at..]) {
            Ok(0) | Err(_) => return false,
            Ok(count) => at += count,
        }
    }
    true
}

impl<W: Write + Drop> Sink for WriteSink<W> {
    ghost use Rattle.std.specs.Prelude.{None};

    ghost taken = { λ s. None };

    ghost faults = { λ s. s.faults };

    fn write_all(&mut self, piece: &[u8]) -> Result<(), Failed> {
        if write_whole(&mut self.writer, piece) {
            return Ok(());
        }
        self.faults = self.faults.saturating_add(1);
        Err(Failed)
    }

    fn finish(&mut self) -> Result<(), Failed> {
        match self.writer.flush() {
            Ok(()) => Ok(()),
            Err(_) => {
                self.faults = self.faults.saturating_add(1);
                Err(Failed)
            }
        }
    }
}
