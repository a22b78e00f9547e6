//! Components of unknown masters.

ghost use Rattle.std.specs.Prelude.{◌≡◌, ℕ, List, is_some, option_copied};
ghost use Rattle.std.specs.List.{find, list_all};
ghost use Rattle.std.specs.HashMap.{keys};
ghost use Rattle.eco_common.specs.KnownNames.{knows};
ghost use Rattle.eco_lef.specs.Collected.{find_master};
ghost use Rattle.eco_elaborate.specs.Stated.{named_comp, named_comps};
ghost use Rattle.eco_master_faults.specs.Checks.{is_unknown as unknown};
ghost use Rattle.eco_master_faults.specs.Differing.{uses};

use crate::used::Models;
use eco_def::{Comp, Design};
use eco_lef::Library;
use eco_text::bytes_at;

/// Whether a component's model isn't in the library.
fn is_unknown(text: &[u8], comp: &Comp, library: &Library) -> bool
    ensures { result ≡ unknown library.now (named_comp text.now comp.now) }
{
    library.find(bytes_at(text, comp.model)).is_none()
}

/// The first component of a design whose model isn't in the library, in the order of the text.
pub fn first_unknown<'a>(text: &[u8], design: &'a Design, library: &Library) -> Option<&'a Comp>
    ensures { option_copied result ≡ find (λ c. unknown library.now (named_comp text.now c)) design.now.comps }
{
    design
        .comps
        .as_slice()
        .iter()
        .find(|comp| is_unknown(text, comp, library))
}

/// Whether each of these models is in the library.
fn all_known(used: &Models<'_>, library: &Library) -> bool
    ensures { result ≡ list_all (λ model. is_some (find_master model.now library.now)) (keys used.now) }
{
    used.keys().all(|model| library.find(*model).is_some())
}

/// The first component of a design whose model isn't in the library. `used` has the models of all components.
///
/// A design has far fewer models than components, so its components are gone through only where one of the models isn't
/// in the library.
pub fn first_of_unknown_model<'a>(
    used: &Models<'_>,
    text: &[u8],
    design: &'a Design,
    library: &Library,
) -> Option<&'a Comp>
    requires { (q : List ℕ) → knows used.now q ≡ uses (named_comps text.now design.now.comps) q }
    ensures { option_copied result ≡ find (λ c. unknown library.now (named_comp text.now c)) design.now.comps }
{
    if all_known(used, library) {
        return None;
    }
    first_unknown(text, design, library)
}
