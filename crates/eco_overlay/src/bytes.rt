//! Building new bytes.

ghost use Rattle.std.specs.Prelude.{◌≡◌, ◌++◌, OnOk};
ghost use Rattle.eco_text.specs.Writing.{joined};

use std::alloc::AllocError;

/// Appends the pieces one after another.
pub fn put(bytes: &mut Vec<u8>, pieces: &[&[u8]]) -> Result<(), AllocError>
    ensures { OnOk result (bytes.new.items ≡ bytes.old.items ++ joined pieces.now) }
{
    for piece in pieces {
        bytes.extend_from_slice(piece)?;
    }
    Ok(())
}
