//! The functions file.

ghost use Rattle.std.specs.Prelude.{◌≡◌, true, IfOk};
ghost use Rattle.std.specs.List.{All};
ghost use Rattle.eco_func.specs.FunctionsFile.{ReadsFunctions};
ghost use Rattle.eco_func.specs.Masters.{is_master};

use crate::document::read_masters;
use crate::fault::FuncFault;
use crate::functions::Functions;
use eco_common::MAX_MASTERS;
use std::alloc::Global;

/// The functions that a text gives: a TOML document with a table per master, each output a table of 0 and 1 or an
/// expression. Else its first fault.
pub fn read_functions(alloc: Global, text: &[u8]) -> Result<Functions, FuncFault>
    ensures reads { ReadsFunctions text.now result }
    ensures masters { IfOk result (λ functions. All (λ m. is_master m.inputs m.outputs ≡ true) functions) }
{
    let document = match toml::table_from_slice(alloc, text) {
        Ok(document) => document,
        Err(error) => {
            if error.is_memory() {
                return Err(FuncFault::Memory);
            }
            return Err(FuncFault::BadToml);
        }
    };
    let count = document.len();
    if MAX_MASTERS < count {
        return Err(FuncFault::TooManyMasters { count });
    }
    let masters = read_masters(alloc, &document)?;
    Ok(Functions::of(masters))
}
