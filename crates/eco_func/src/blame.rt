//! Faults with the names of what they are about.

ghost use Rattle.eco_func.specs.FunctionsFile.{Blames};
ghost use Rattle.eco_func.specs.declared.fault.FuncFault.TheVariants.{BadField, TooManyInputs, BadTable, BadExpression, UnknownInput};

use crate::fault::FuncFault;
use eco_common::Name;
use std::alloc::Global;

/// `BadField`.
pub fn bad_field(alloc: Global, master: &[u8], field: &[u8]) -> FuncFault
    ensures { Blames (BadField master.now field.now) result }
{
    match (Name::of(alloc, master), Name::of(alloc, field)) {
        (Ok(master), Ok(field)) => FuncFault::BadField { master, field },
        _ => FuncFault::Memory,
    }
}

/// `TooManyInputs`.
pub fn too_many_inputs(alloc: Global, master: &[u8]) -> FuncFault
    ensures { Blames (TooManyInputs master.now) result }
{
    match Name::of(alloc, master) {
        Ok(master) => FuncFault::TooManyInputs { master },
        Err(_) => FuncFault::Memory,
    }
}

/// `BadTable`.
pub fn bad_table(alloc: Global, master: &[u8], output: &[u8]) -> FuncFault
    ensures { Blames (BadTable master.now output.now) result }
{
    match (Name::of(alloc, master), Name::of(alloc, output)) {
        (Ok(master), Ok(output)) => FuncFault::BadTable { master, output },
        _ => FuncFault::Memory,
    }
}

/// `BadExpression`.
pub fn bad_expression(alloc: Global, master: &[u8], output: &[u8], place: u32) -> FuncFault
    ensures { Blames (BadExpression master.now output.now place) result }
{
    match (Name::of(alloc, master), Name::of(alloc, output)) {
        (Ok(master), Ok(output)) => FuncFault::BadExpression {
            master,
            output,
            place,
        },
        _ => FuncFault::Memory,
    }
}

/// `UnknownInput`.
pub fn unknown_input(alloc: Global, master: &[u8], output: &[u8], input: &[u8]) -> FuncFault
    ensures { Blames (UnknownInput master.now output.now input.now) result }
{
    match (
        Name::of(alloc, master),
        Name::of(alloc, output),
        Name::of(alloc, input),
    ) {
        (Ok(master), Ok(output), Ok(input)) => FuncFault::UnknownInput {
            master,
            output,
            input,
        },
        _ => FuncFault::Memory,
    }
}
