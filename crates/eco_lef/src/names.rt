//! Names and where they stand in a list.

ghost use Rattle.std.specs.Prelude.{◌≡◌, ℕ, List, Some, None, OnOk, if◌then◌else◌};
ghost use Rattle.std.specs.Option.{option_or};
ghost use Rattle.std.specs.Str.{bytes_eq};
ghost use Rattle.eco_lef.specs.Known.{place_of, knows};

use std::alloc::{AllocError, Global};
use std::collections::HashMap;

/// The names of a list, each with the place where it stands first.
pub type Names = HashMap<Vec<u8>, usize>;

pub fn has_name(names: &Names, name: &[u8]) -> bool
    ensures { result ≡ knows names.now name.now }
{
    names.get(name).is_some()
}

/// Adds a name with its place. One that is known keeps its place.
pub fn add_name(
    alloc: Global,
    names: &mut Names,
    name: &[u8],
    place: usize,
) -> Result<(), AllocError>
    ensures { OnOk result ((q : List ℕ) → place_of names.new q ≡ option_or (place_of names.old q) (if bytes_eq name.now q then Some place else None)) }
{
    if !has_name(names, name) {
        names.insert(Vec::from_slice(alloc, name)?, place)?;
    }
    Ok(())
}
