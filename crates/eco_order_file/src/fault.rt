//! Why a JSON value is no order.

ghost use Rattle.std.specs.Prelude.{◌≡◌, [], ◌++◌, IfOk};
ghost use Rattle.eco_order_file.specs.Given.{IsBad, IsBelow};
ghost use Rattle.eco_order_file.specs.Documents.{field_step, item_step};
ghost use Rattle.eco_order_file.specs.declared.fault.FieldFault.TheVariants.{Memory as OutOfMemory};

use eco_common::{Memory, Name};
use std::alloc::{AllocError, AllocFailed, Global};

/// Why a value is not read.
#[derive(Debug, Drop)]
pub enum FieldFault {
    /// A field is missing, unknown or of another form. The path leads to it from the value.
    Bad { path: Name },
    /// Out of memory.
    Memory,
}

impl From<Memory> for FieldFault {
    ghost from_gives = { λ _ e. e ≡ OutOfMemory };

    fn from(_: Memory) -> FieldFault {
        FieldFault::Memory
    }
}

impl From<AllocError> for FieldFault {
    ghost from_gives = { λ _ e. e ≡ OutOfMemory };

    fn from(_: AllocError) -> FieldFault {
        FieldFault::Memory
    }
}

impl<T: Drop> From<AllocFailed<T>> for FieldFault {
    ghost from_gives = { λ _ e. e ≡ OutOfMemory };

    fn from(_: AllocFailed<T>) -> FieldFault {
        FieldFault::Memory
    }
}

/// The fault of a path.
pub fn bad(alloc: Global, path: &[u8]) -> FieldFault
    ensures { IsBad path.now result }
{
    match Name::of(alloc, path) {
        Ok(path) => FieldFault::Bad { path },
        Err(_) => FieldFault::Memory,
    }
}

/// The fault of the value itself.
pub fn bad_itself(alloc: Global) -> FieldFault
    ensures { IsBad [] result }
{
    bad(alloc, b"")
}

/// A path with a step before it.
fn longer(alloc: Global, step: &[u8], path: &[u8]) -> Result<Vec<u8>, AllocError>
    ensures { IfOk result (λ whole. whole.items ≡ step.now ++ path.now) }
{
    let mut whole = Vec::new(alloc);
    whole.extend_from_slice(step)?;
    whole.extend_from_slice(path)?;
    Ok(whole)
}

/// The fault, seen from a step before.
fn further(alloc: Global, step: &[u8], fault: FieldFault) -> FieldFault
    ensures { IsBelow step.now fault result }
{
    match fault {
        FieldFault::Bad { path } => match longer(alloc, step, path.bytes()) {
            Ok(whole) => bad(alloc, &whole),
            Err(_) => FieldFault::Memory,
        },
        FieldFault::Memory => FieldFault::Memory,
    }
}

/// The step to a field.
fn dotted(alloc: Global, name: &str) -> Result<Vec<u8>, AllocError>
    ensures { IfOk result (λ step. step.items ≡ field_step name.now) }
{
    let mut step = Vec::new(alloc);
    step.push(b'.')?;
    step.extend_from_slice(name.as_bytes())?;
    Ok(step)
}

/// The fault of a field, seen from its object.
pub fn in_field(alloc: Global, name: &str, fault: FieldFault) -> FieldFault
    ensures { IsBelow (field_step name.now) fault result }
{
    match dotted(alloc, name) {
        Ok(step) => further(alloc, &step, fault),
        Err(_) => FieldFault::Memory,
    }
}

/// The step to an item.
fn numbered(alloc: Global, place: usize) -> Result<Vec<u8>, AllocError>
    ensures { IfOk result (λ step. step.items ≡ item_step place) }
{
    let digits = place.to_string(alloc)?;
    let mut step = Vec::new(alloc);
    step.push(b'[')?;
    step.extend_from_slice(digits.as_bytes())?;
    step.push(b']')?;
    Ok(step)
}

/// The fault of an item, seen from its list.
pub fn in_item(alloc: Global, place: usize, fault: FieldFault) -> FieldFault
    ensures { IsBelow (item_step place) fault result }
{
    match numbered(alloc, place) {
        Ok(step) => further(alloc, &step, fault),
        Err(_) => FieldFault::Memory,
    }
}
