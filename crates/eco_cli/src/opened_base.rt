//! Opening the base that a command works on.

ghost use Rattle.eco_cli.specs.BaseTexts.{OpensBase};

use crate::base_texts::BaseTexts;
use crate::failure::Failure;
use crate::refusal::Refusal;
use eco_base::{Base, BaseFault, open_base};
use std::alloc::Global;

/// The base of four texts.
pub fn opened(alloc: Global, texts: BaseTexts) -> Result<Base, Failure>
    ensures { OpensBase texts result }
{
    match open_base(alloc, texts.lef, texts.def, texts.functions, texts.desk) {
        Ok(base) => Ok(base),
        Err(BaseFault::Memory) => Err(Failure::Memory),
        Err(fault) => Err(Failure::Refused(Refusal::Base(fault))),
    }
}
