//! Lists of texts in a TOML document.

ghost use Rattle.std.specs.Prelude.{◌≡◌, IfOk, option_map};
ghost use Rattle.toml.specs.View.{array_view};
ghost use Rattle.eco_func.specs.FunctionsFile.{texts_of};

use eco_common::{Memory, Name};
use std::alloc::Global;
use toml::value::Array;

/// The texts of a list that has nothing else.
pub fn texts(alloc: Global, list: &Array) -> Result<Option<Vec<Name>>, Memory>
    ensures { IfOk result (λ found. option_map (λ names. names.items) found ≡ texts_of (array_view list.now)) }
{
    let mut names = Vec::new(alloc);
    for value in list {
        match value.as_str() {
            Some(text) => names.push(Name::of(alloc, text.as_bytes())?)?,
            None => return Ok(None),
        }
    }
    Ok(Some(names))
}
