//! An output of a master.

use crate::table::Table;
use eco_common::Name;

/// An output pin and the table of its value over the master's inputs.
#[derive(Drop)]
pub struct OutputFn {
    pub pin: Name,
    pub table: Table,
}
