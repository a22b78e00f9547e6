//! The desk file's text.

ghost use Rattle.eco_desk_file.specs.DeskText.{ReadsDesk};

use crate::desk::DeskFile;
use crate::document::desk_of;
use crate::fault::{DeskFault, bad_field};
use std::alloc::Global;

/// The desk file that a text gives: `tie_high` and `tie_low`, two different names of nets, and `spares`, a list of one
/// to 64 prefixes, none empty, and no other field. Else the first field at fault.
pub fn read_desk(alloc: Global, text: &[u8]) -> Result<DeskFile, DeskFault>
    ensures { ReadsDesk text.now result }
{
    match toml::table_from_slice(alloc, text) {
        Ok(document) => desk_of(alloc, &document),
        Err(error) => {
            if error.is_memory() {
                return Err(DeskFault::Memory);
            }
            Err(bad_field(alloc, b"file"))
        }
    }
}
