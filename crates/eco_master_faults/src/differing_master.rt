//! The first master that isn't as the functions file lists it.

ghost use Rattle.std.specs.Prelude.{option_copied};
ghost use Rattle.std.specs.Option.{option_map};
ghost use Rattle.eco_common.specs.KnownNames.{knows};
ghost use Rattle.eco_master_faults.specs.Differing.{Differs, IsLeast, FirstDiffering};

use crate::differing::least_differing;
use crate::used::{Models, is_used};
use eco_common::Name;
use eco_func::Functions;
use eco_lef::{Library, Master};

/// The least pin of a master that differs, if components have the master and the functions file names it.
fn differing_pin<'a>(
    master: &'a Master,
    functions: &'a Functions,
    used: &Models<'_>,
) -> Option<&'a Name>
    ensures { IsLeast (Differs (knows used.now) functions.now master.now) (option_copied result) }
{
    if !is_used(used, master.name.bytes()) {
        return None;
    }
    let function = functions.find(master.name.bytes())?;
    least_differing(master, function)
}

/// The first master of the library that components have, that the functions file names and whose pins differ from those
/// listed there, with the least such pin by bytes.
///
/// `used` has the models of the components.
pub fn first_differing<'a>(
    library: &'a Library,
    functions: &'a Functions,
    used: &Models<'_>,
) -> Option<(&'a Master, &'a Name)>
    ensures { FirstDiffering (knows used.now) functions.now library.now (option_map (λ x. (x.0.now, x.1.now)) result) }
{
    let masters = library.masters();
    for master in masters {
        if let Some(pin) = differing_pin(master, functions, used) {
            return Some((master, pin));
        }
    }
    None
}
