//! What a patch gate is.

ghost use Rattle.std.specs.Prelude.{◌≡◌, ◌≤◌, map, IfOk};
ghost use Rattle.std.specs.List.{range_with_len};
ghost use Rattle.eco_patch_laws.specs.Insertion.{input_pin};
ghost use Rattle.eco_one_gate.specs.OneSteps.{patch_tables};

use eco_common::{Memory, Name};
use eco_func::{MasterFn, OutputFn, Table};
use std::alloc::Global;

/// The names of a patch gate's input pins: i0, i1 and so on.
fn input_pins(alloc: Global, inputs: u8) -> Result<Vec<Name>, Memory>
    requires { inputs ≤ 6 }
    ensures { IfOk result (λ names. names.items ≡ map input_pin (range_with_len 0 inputs)) }
{
    let mut names = Vec::new(alloc);
    for place in 0..inputs {
        names.push(Name::of(alloc, &[b'i', b'0' + place])?)?;
    }
    Ok(names)
}

/// The output of a patch gate of this table: its pin is out.
fn outputs(alloc: Global, table: Table) -> Result<Vec<OutputFn>, Memory>
    ensures { IfOk result (λ outputs. outputs.items ≡ (patch_tables table).outputs) }
{
    let pin = Name::of(alloc, b"out")?;
    let mut outputs = Vec::new(alloc);
    outputs.push(OutputFn { pin, table })?;
    Ok(outputs)
}

/// The master of a patch gate of this table.
pub(crate) fn patch_master(alloc: Global, table: Table) -> Result<MasterFn, Memory>
    ensures { IfOk result (λ m. m ≡ patch_tables table) }
{
    let name = Name::of(alloc, b"")?;
    let inputs = input_pins(alloc, table.inputs())?;
    let outputs = outputs(alloc, table)?;
    let made = MasterFn::new(alloc, name, inputs, outputs)?;
    match made {
        Some(master) => Ok(master),
        None => unreachable!(),
    }
}
