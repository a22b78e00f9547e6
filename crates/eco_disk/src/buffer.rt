//! Edits of bytes in place, where they have to grow only after the memory is there.
ghost use Rattle.std.specs.Prelude.{◌≡◌, ◌≤◌, length, take, OnOk, OnErr};
ghost use Rattle.eco_disk.specs.Disk.{written};

use std::alloc::AllocError;

/// Puts a piece at a place. Without memory the bytes stay.
pub fn overwrite(bytes: &mut Vec<u8>, at: usize, piece: &[u8]) -> Result<(), AllocError>
    requires { at ≤ length bytes.old.items }
    ensures ok { OnOk result (bytes.new.items ≡ written at piece.now bytes.old.items) }
    ensures err { OnErr result (bytes.new.items ≡ bytes.old.items) }
{
    let room = bytes.len() - at;
    if piece.len() <= room {
        bytes[at..at + piece.len()].copy_from_slice(piece);
        return Ok(());
    }
    bytes.reserve(piece.len() - room)?;
    bytes.truncate(at);
    bytes.extend_from_slice(piece)
}

/// Makes bytes those of a source with which they agree below a place. Without memory they stay.
pub fn follow(bytes: &mut Vec<u8>, agree: usize, source: &[u8]) -> Result<(), AllocError>
    requires within { agree ≤ length source.now }
    requires same { take agree bytes.old.items ≡ take agree source.now }
    ensures ok { OnOk result (bytes.new.items ≡ source.now) }
    ensures err { OnErr result (bytes.new.items ≡ bytes.old.items) }
{
    bytes.reserve(source.len() - agree)?;
    bytes.truncate(agree);
    bytes.extend_from_slice(&source[agree..])
}
