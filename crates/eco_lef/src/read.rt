//! The library of a text.

ghost use Rattle.std.specs.Prelude.{◌≡◌, ◌≤◌, length, Ok, IfOk, IfErr};
ghost use Rattle.eco_lef.specs.Grammar.{library_within};
ghost use Rattle.eco_lef.specs.Limits.{IsLibraryOf};
ghost use Rattle.eco_lef.specs.Names.{HaveOwnNames};
ghost use Rattle.eco_lef.specs.Reading.{Refuses};
ghost use Rattle.eco_lef.specs.Sizes.{KeepSizes};

use crate::fault::LefFault;
use crate::library::Library;
use crate::reader::Reader;
use eco_common::{MAX_LEF_BYTES, MAX_MASTERS};
use std::alloc::Global;

/// Reads a LEF text of at most 67,108,864 bytes.
///
/// The masters are those of the text by the rules of docs/FORMATS.md, at most 16,384. A text that gives none has a first
/// fault, from the front of the text, and that is the answer.
pub fn read_lef(alloc: Global, text: &[u8]) -> Result<Library, LefFault>
    requires { length text.now ≤ MAX_LEF_BYTES }
    ensures library { IfOk result (IsLibraryOf MAX_MASTERS text.now) }
    ensures names { IfOk result HaveOwnNames }
    ensures sizes { IfOk result KeepSizes }
    ensures masters { IfOk result (λ masters. library_within MAX_MASTERS text.now ≡ Ok masters) }
    ensures fault { IfErr result (λ e. Refuses (library_within MAX_MASTERS text.now) e) }
{
    let mut reader = Reader::new(alloc, text);
    reader.library()
}
