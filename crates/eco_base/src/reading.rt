//! Reading the four texts of a base.

ghost use Rattle.std.specs.Prelude.{◌≡◌, ◌≤◌, true, length, Ok, IfOk, IfErr};
ghost use Rattle.std.specs.List.{All};
ghost use Rattle.eco_def.specs.Sections.{IsReadingOf};
ghost use Rattle.eco_func.specs.FunctionsFile.{ReadsFunctions};
ghost use Rattle.eco_func.specs.Masters.{is_master};
ghost use Rattle.eco_lef.specs.Names.{HaveOwnNames};
ghost use Rattle.eco_lef.specs.Sizes.{KeepSizes};
ghost use Rattle.eco_desk_file.specs.DeskText.{ReadsDesk};
ghost use Rattle.eco_base.specs.Texts.{IsLibrary, IsReadFrom};
ghost use Rattle.eco_base.specs.TextFaults.{BlamesLef, BlamesDef, BlamesFunctions, BlamesDesk};
ghost use Rattle.eco_base.specs.Opened.{IsFirstFault};

use crate::fault::BaseFault;
use crate::texts::Texts;
use eco_common::{MAX_DEF_BYTES, MAX_LEF_BYTES};
use eco_def::{DefFault, Design, read_def};
use eco_desk_file::{DeskFault, DeskFile, read_desk};
use eco_func::{FuncFault, Functions, read_functions};
use eco_lef::{LefFault, Library, read_lef};
use std::alloc::Global;

/// The library of a LEF text.
fn library_of(alloc: Global, lef: &[u8]) -> Result<Library, BaseFault>
    requires { length lef.now ≤ MAX_LEF_BYTES }
    ensures library { IfOk result (IsLibrary lef.now) }
    ensures names { IfOk result HaveOwnNames }
    ensures sizes { IfOk result KeepSizes }
    ensures fault { IfErr result (BlamesLef lef.now) }
{
    match read_lef(alloc, lef) {
        Ok(library) => Ok(library),
        Err(LefFault::Memory) => Err(BaseFault::Memory),
        Err(fault) => Err(BaseFault::Lef(fault)),
    }
}

/// The design of a DEF text.
fn design_of(alloc: Global, def: &[u8]) -> Result<Design, BaseFault>
    requires { length def.now ≤ MAX_DEF_BYTES }
    ensures design { IfOk result (IsReadingOf def.now) }
    ensures fault { IfErr result (BlamesDef def.now) }
{
    match read_def(alloc, def) {
        Ok(design) => Ok(design),
        Err(DefFault::Memory) => Err(BaseFault::Memory),
        Err(fault) => Err(BaseFault::Def(fault)),
    }
}

/// The functions of a functions file.
fn functions_of(alloc: Global, functions: &[u8]) -> Result<Functions, BaseFault>
    ensures functions { IfOk result (λ tables. ReadsFunctions functions.now (Ok tables)) }
    ensures masters { IfOk result (λ tables. All (λ m. is_master m.inputs m.outputs ≡ true) tables) }
    ensures fault { IfErr result (BlamesFunctions functions.now) }
{
    match read_functions(alloc, functions) {
        Ok(functions) => Ok(functions),
        Err(FuncFault::Memory) => Err(BaseFault::Memory),
        Err(fault) => Err(BaseFault::Func(fault)),
    }
}

/// The desk file of a text.
fn desk_of(alloc: Global, desk: &[u8]) -> Result<DeskFile, BaseFault>
    ensures desk { IfOk result (λ file. ReadsDesk desk.now (Ok file)) }
    ensures fault { IfErr result (BlamesDesk desk.now) }
{
    match read_desk(alloc, desk) {
        Ok(desk) => Ok(desk),
        Err(DeskFault::BadField { field }) => Err(BaseFault::Desk { field }),
        Err(DeskFault::Memory) => Err(BaseFault::Memory),
    }
}

/// Reads a LEF of at most 67,108,864 bytes, a DEF of at most 134,217,728, a functions file and a desk file, in this order.
/// The first that is at fault is the answer.
pub fn read_texts(
    alloc: Global,
    lef: &[u8],
    def: Vec<u8>,
    functions: &[u8],
    desk: &[u8],
) -> Result<Texts, BaseFault>
    requires lef { length lef.now ≤ MAX_LEF_BYTES }
    requires def { length def.items ≤ MAX_DEF_BYTES }
    ensures texts { IfOk result (IsReadFrom lef.now def.items functions.now desk.now) }
    ensures fault { IfErr result (IsFirstFault lef.now def.items functions.now desk.now) }
{
    let library = library_of(alloc, lef)?;
    let design = design_of(alloc, &def)?;
    let functions = functions_of(alloc, functions)?;
    let desk = desk_of(alloc, desk)?;
    Ok(Texts::of(def, design, library, functions, desk))
}
