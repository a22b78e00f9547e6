//! The command `check`.

ghost use Rattle.eco_cli.specs.BaseTexts.{texts_in};
ghost use Rattle.eco_cli.specs.CheckCommand.{CheckGives, CheckRefuses};
ghost use Rattle.eco_cli.specs.Steps.{Plans};

use crate::base_texts::BaseTexts;
use crate::done::Done;
use crate::failure::Failure;
use crate::opened_base::opened;
use crate::plan::Plan;
use crate::report::report_on;
use std::alloc::Global;

/// Opens the base of the texts, and counts what it has.
pub fn plan_check(alloc: Global, texts: BaseTexts) -> Result<Plan, Failure>
    ensures { Plans (CheckGives (texts_in texts)) (CheckRefuses (texts_in texts)) result }
{
    let base = opened(alloc, texts)?;
    Ok(Plan::Told(Done::Checked(report_on(&base))))
}
