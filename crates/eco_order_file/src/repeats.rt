//! What stands twice.

ghost use Rattle.std.specs.Prelude.{◌≡◌, IfOk};
ghost use Rattle.std.specs.Ordering.{eq_by_cmp};
ghost use Rattle.eco_order_file.specs.Repeats.{first_twice as first_twice_of};

use eco_common::Memory;
use std::alloc::Global;
use std::collections::BTreeSet;

/// The first key that stands a second time.
pub fn first_twice<K: Ord + Copy>(alloc: Global, keys: &[K]) -> Result<Option<K>, Memory>
    ensures { IfOk result (λ found. found ≡ first_twice_of (eq_by_cmp K.cmp) keys.now) }
{
    let mut seen = BTreeSet::new(alloc);
    for key in keys {
        if !seen.insert(*key)? {
            return Ok(Some(*key));
        }
    }
    Ok(None)
}
