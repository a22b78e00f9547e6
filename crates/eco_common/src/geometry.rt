//! Points, sizes and directions.

/// A point, in database units or in halves of them.
#[derive(Clone, Copy, Debug, Drop, PartialEq, Eq)]
pub struct Point {
    pub x: i64,
    pub y: i64,
}

/// A width and a height in millionths of a micron.
#[derive(Clone, Copy, Debug, Drop, PartialEq, Eq)]
pub struct Size {
    pub width: u64,
    pub height: u64,
}

/// Which way a pin goes, seen from its cell or design: LEF `PIN DIRECTION`, DEF `PINS + DIRECTION`.
/// A pin without one, and FEEDTHRU, counts as `Inout`.
#[derive(Clone, Copy, Debug, Drop, PartialEq, Eq)]
pub enum Dir {
    Input,
    Output,
    Inout,
}
