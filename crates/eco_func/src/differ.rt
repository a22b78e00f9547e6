//! Names that differ.

ghost use Rattle.std.specs.Prelude.{◌≡◌, IfOk};
ghost use Rattle.eco_func.specs.Masters.{all_differ};

use eco_common::{Memory, Name};
use std::alloc::Global;
use std::collections::BTreeSet;

/// Whether no name stands twice.
pub fn differ(alloc: Global, names: &[Name]) -> Result<bool, Memory>
    ensures { IfOk result (λ b. b ≡ all_differ names.now) }
{
    let mut seen = BTreeSet::new(alloc);
    for name in names {
        if !seen.insert(name.bytes())? {
            return Ok(false);
        }
    }
    Ok(true)
}
