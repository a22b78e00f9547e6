//! Whether masters fit a design and the functions file.

ghost use Rattle.std.specs.Prelude.{◌≡◌};
ghost use Rattle.eco_elaborate.specs.Stated.{named_comps};
ghost use Rattle.eco_master_faults.specs.Checks.{Checks};

use crate::differing_master::first_differing;
use crate::fault::MasterFault;
use crate::unknown::first_of_unknown_model;
use crate::used::used_models;
use eco_common::Name;
use eco_def::Design;
use eco_func::Functions;
use eco_lef::Library;
use eco_text::bytes_at;
use std::alloc::Global;

/// Whether each component's model is in the library, and each used master that the functions file names has exactly the
/// pins that are listed there, its supply pins aside.
///
/// `UnknownMaster` comes before `FunctionPins`, the first of each in the order of the design and of the library.
pub fn check_masters(
    alloc: Global,
    text: &[u8],
    design: &Design,
    library: &Library,
    functions: &Functions,
) -> Result<(), MasterFault>
    ensures { Checks (named_comps text.now design.now.comps) library.now functions.now result }
{
    let used = used_models(alloc, text, design.comps.as_slice())?;
    if let Some(comp) = first_of_unknown_model(&used, text, design, library) {
        let comp = Name::of(alloc, bytes_at(text, comp.name))?;
        return Err(MasterFault::UnknownMaster { comp });
    }
    match first_differing(library, functions, &used) {
        None => Ok(()),
        Some((master, pin)) => Err(MasterFault::FunctionPins {
            master: master.name.copy(alloc)?,
            pin: pin.copy(alloc)?,
        }),
    }
}
