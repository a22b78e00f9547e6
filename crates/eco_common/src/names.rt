//! Sets of names.

ghost use Rattle.std.specs.Prelude.{◌≡◌, ℕ, List, true, not, IfOk, OnOk, if◌then◌else◌};
ghost use Rattle.std.specs.Str.{bytes_eq};
ghost use Rattle.eco_common.specs.KnownNames.{knows};

use std::alloc::AllocError;
use std::collections::HashMap;

/// A set of names, whose bytes stand in a text.
pub type Names<'a> = HashMap<&'a [u8], ()>;

/// Adds a name, and says whether it is new.
pub fn add_name<'a>(names: &mut Names<'a>, name: &'a [u8]) -> Result<bool, AllocError>
    ensures added { IfOk result (λ b. b ≡ not (knows names.old name.now)) }
    ensures names { OnOk result ((q : List ℕ) → knows names.new q ≡ (if bytes_eq name.now q then true else knows names.old q)) }
{
    Ok(names.insert(name, ())?.is_none())
}

/// Whether the set has the name.
pub fn has_name(names: &Names<'_>, name: &[u8]) -> bool
    ensures { result ≡ knows names.now name.now }
{
    names.get(&name).is_some()
}
