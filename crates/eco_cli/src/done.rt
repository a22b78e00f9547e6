//! What a command did.

use crate::report::Report;

/// What is told of a command that did its work.
#[derive(Debug, Drop)]
pub enum Done {
    /// So many bytes were written to the output.
    Written(u64),
    /// The texts are those of a base, and this is its report.
    Checked(Report),
}
