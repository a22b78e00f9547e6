//! What all crates share: names, points, failures of calls, and the limits.
//!
//! Names, points and directions are those of LEF/DEF 5.8. The limits are those of docs/FORMATS.md.
#![tactic(auto)]

mod failed;
mod geometry;
mod limits;
mod memory;
mod name;
mod name_bytes;
mod names;

pub use crate::failed::Failed;
pub use crate::geometry::{Dir, Point, Size};
pub use crate::limits::{
    MAX_CENTRE, MAX_COMPS, MAX_DEF_BYTES, MAX_DESK_BYTES, MAX_EXPRESSION_BYTES,
    MAX_EXPRESSION_DEPTH, MAX_FUNCTIONS_BYTES, MAX_INPUTS, MAX_JOINTS, MAX_LEF_BYTES,
    MAX_LISTED_COMPS, MAX_LISTED_NETS, MAX_MASTERS, MAX_MILLIONTHS, MAX_NAME_BYTES, MAX_NETS,
    MAX_NEW_NET_BYTES, MAX_ORDER_BYTES, MAX_OUTPUTS, MAX_ROWS, MAX_STOCK, MAX_TOP_PINS, MAX_UNITS,
    MIN_CENTRE,
};
pub use crate::memory::Memory;
pub use crate::name::Name;
pub use crate::name_bytes::{is_mark, is_name};
pub use crate::names::{Names, add_name, has_name};
