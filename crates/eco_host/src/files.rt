//! A host that opens files.

use crate::read_source::ReadSource;
use crate::write_sink::WriteSink;
use eco_cli::{Host, HostFault};
use std::fs;
use std::rt::Files;

/// Opens files by their paths. A sink makes its file anew. It tells nothing of what the files hold.
#[derive(Drop)]
pub struct FileHost<'a, R: Files> {
    files: &'a R,
    refused: u64,
    read_faults: u64,
    write_faults: u64,
    open_sources: u64,
    open_sinks: u64,
}

impl<'a, R: Files> FileHost<'a, R> {
    ghost use Rattle.std.specs.Prelude.{◌≡◌};

    /// A host that has refused nothing and has nothing open.
    pub fn new(files: &'a R) -> FileHost<'a, R>
        ensures refused { result.refused ≡ 0 }
        ensures reads { result.read_faults ≡ 0 }
        ensures writes { result.write_faults ≡ 0 }
        ensures open_sources { result.open_sources ≡ 0 }
        ensures open_sinks { result.open_sinks ≡ 0 }
    {
        FileHost {
            files,
            refused: 0,
            read_faults: 0,
            write_faults: 0,
            open_sources: 0,
            open_sinks: 0,
        }
    }
}

impl<'a, R: Files> Host for FileHost<'a, R> {
    type Input = ReadSource<R::File>;

    type Output = WriteSink<R::File>;

    ghost use Rattle.std.specs.Prelude.{None};

    ghost told = { record {
      sources = λ h. None;
      sinks = λ h. None;
      asked = λ h. None;
      sources_back = λ h. None;
      sinks_back = λ h. None;
      refused = λ h. h.refused;
      read_faults = λ h. h.read_faults;
      write_faults = λ h. h.write_faults;
      open_sources = λ h. h.open_sources;
      open_sinks = λ h. h.open_sinks;
    } };

    fn source(&mut self, name: &str) -> Result<ReadSource<R::File>, HostFault> {
        let Some(open) = self.open_sources.checked_add(1) else {
            return Err(HostFault::Memory);
        };
        match fs::open(self.files, name) {
            Ok(file) => {
                self.open_sources = open;
                Ok(ReadSource::new(file))
            }
            Err(_) => {
                self.refused = self.refused.saturating_add(1);
                Err(HostFault::Refused)
            }
        }
    }

    fn sink(&mut self, name: &str) -> Result<WriteSink<R::File>, HostFault> {
        let Some(open) = self.open_sinks.checked_add(1) else {
            return Err(HostFault::Memory);
        };
        match fs::create(self.files, name) {
            Ok(file) => {
                self.open_sinks = open;
                Ok(WriteSink::new(file))
            }
            Err(_) => {
                self.refused = self.refused.saturating_add(1);
                Err(HostFault::Refused)
            }
        }
    }

    fn done_source(&mut self, source: ReadSource<R::File>) {
        if 0 < source.faults {
            self.read_faults = self.read_faults.saturating_add(1);
        }
        self.open_sources -= 1;
    }

    fn done_sink(&mut self, sink: WriteSink<R::File>) {
        if 0 < sink.faults {
            self.write_faults = self.write_faults.saturating_add(1);
        }
        self.open_sinks -= 1;
    }
}
