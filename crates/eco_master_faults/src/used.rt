//! The models of a design's components.

ghost use Rattle.std.specs.Prelude.{◌≡◌, ℕ, List, IfOk, OnOk, if◌then◌else◌};
ghost use Rattle.std.specs.Prelude.{true};
ghost use Rattle.std.specs.Str.{bytes_eq};
ghost use Rattle.eco_common.specs.KnownNames.{knows};
ghost use Rattle.eco_elaborate.specs.Stated.{named_comps};
ghost use Rattle.eco_master_faults.specs.Differing.{uses};

use eco_common::Memory;
use eco_def::Comp;
use eco_text::bytes_at;
use std::alloc::Global;
use std::collections::HashMap;

/// The names of masters that components have as their models.
pub type Models<'a> = HashMap<&'a [u8], ()>;

/// Whether a component has the master of a name.
pub fn is_used(used: &Models<'_>, name: &[u8]) -> bool
    ensures { result ≡ knows used.now name.now }
{
    used.contains_key(&name)
}

/// Adds a name.
fn add_model<'a>(used: &mut Models<'a>, name: &'a [u8]) -> Result<(), Memory>
    ensures { OnOk result ((q : List ℕ) → knows used.new q ≡ (if bytes_eq name.now q then true else knows used.old q)) }
{
    used.insert(name, ())?;
    Ok(())
}

/// The masters that components have as their models, by name.
pub fn used_models<'a>(alloc: Global, text: &'a [u8], comps: &[Comp]) -> Result<Models<'a>, Memory>
    ensures { IfOk result (λ used. (q : List ℕ) → knows used q ≡ uses (named_comps text.now comps.now) q) }
{
    let mut used = HashMap::new(alloc);
    for comp in comps {
        add_model(&mut used, bytes_at(text, comp.model))?;
    }
    Ok(used)
}
