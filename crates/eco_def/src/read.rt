//! The design of a text.

ghost use Rattle.std.specs.Prelude.{◌≤◌, length};
ghost use Rattle.eco_def.specs.Limits.{LimitsKeep, FaultsStay, LimitStands};
ghost use Rattle.eco_def.specs.Answers.{Answers};

use crate::design::Design;
use crate::fault::DefFault;
use crate::reader::Reader;
use eco_common::MAX_DEF_BYTES;
use std::alloc::Global;

/// Reads a DEF text of at most 134,217,728 bytes.
///
/// The design comes exactly where the text has one by the rules of docs/FORMATS.md, with at most 1,000,000 components,
/// 1,000,000 top pins, 1,000,000 net statements and 4,000,000 joints, those of SPECIALNETS counted in. Any other text
/// has a first fault, with its place in bytes.
pub fn read_def(alloc: Global, text: &[u8]) -> Result<Design, DefFault>
    requires { length text.now ≤ MAX_DEF_BYTES }
    ensures { Answers text.now result }
{
    let mut reader = Reader::new(text);
    let sections = reader.design(alloc)?;
    sections.into_design(alloc)
}

/// A law: a reader with limits reads the designs that keep them, as they are without limits.
pub fn limits_keep()
    ensures { LimitsKeep }
{}

/// A law: each fault of a reader with limits is the first of the text, but for the limits themselves.
pub fn faults_stay()
    ensures { FaultsStay }
{}

/// A law: `Limit` stands at the name of the first statement, or at the bracket of the first joint, above a limit, and all
/// before it is read without fault.
pub fn limit_stands()
    ensures { LimitStands }
{}
