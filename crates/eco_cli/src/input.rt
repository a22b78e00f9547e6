//! Reading an input to its end.

ghost use Rattle.std.specs.Prelude.{◌<◌, ◌≤◌};
ghost use Rattle.eco_cli.specs.Whole.{ReadsAll, ReadsTo};

use eco_text::Source;
use std::alloc::Global;

/// Why a source wasn't read whole.
#[derive(Clone, Copy, Debug, Drop, PartialEq, Eq)]
pub enum InputFault {
    TooLong,
    Read,
    Memory,
}

/// All the bytes of a source with at most that many. Of a longer one it reads one byte more.
pub fn read_all<S: Source>(
    alloc: Global,
    limit: usize,
    source: &mut S,
) -> Result<Vec<u8>, InputFault>
    requires { limit < 4294967296 }
    ensures reads { ReadsAll limit (S.left source.old) (S.faults source.old) (S.faults source.new) (λ v. v.items) result }
    ensures returned { ReadsTo limit (S.left source.old) (S.left source.new) result }
    ensures later { S.faults source.old ≤ S.faults source.new }
{
    let mut bytes = Vec::new(alloc);
    let mut piece = [0; 65_536];
    while bytes.len() <= limit {
        let room = (limit + 1 - bytes.len()).min(65_536);
        let part = &mut piece[..room];
        match source.read(part) {
            Ok(0) => return Ok(bytes),
            Ok(count) => {
                if bytes.extend_from_slice(&part[..count]).is_err() {
                    return Err(InputFault::Memory);
                }
            }
            Err(_) => return Err(InputFault::Read),
        }
    }
    Err(InputFault::TooLong)
}
