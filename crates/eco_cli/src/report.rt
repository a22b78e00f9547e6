//! What `check` tells of a base.

ghost use Rattle.eco_cli.specs.CheckCommand.{IsReportOf};

use eco_base::{Base, Census};

/// The numbers of a base.
#[derive(Clone, Copy, Debug, Drop, PartialEq, Eq)]
pub struct Report {
    /// How much it has.
    pub census: Census,
    /// The depth over all gates that aren't stock.
    pub levels: u32,
}

/// The report of a base.
pub fn report_on(base: &Base) -> Report
    ensures { IsReportOf base.now result }
{
    Report {
        census: base.census(),
        levels: base.depth(),
    }
}
