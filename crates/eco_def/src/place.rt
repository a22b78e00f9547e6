//! Where a component lies.

use crate::orient::Orient;
use eco_common::Point;

/// The lower left corner of the placed, oriented box, in database units, and how the box lies.
#[derive(Clone, Copy, Debug, Drop, PartialEq, Eq)]
pub struct Place {
    pub point: Point,
    pub orient: Orient,
}
