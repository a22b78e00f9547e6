//! The stock of spare cells.

use eco_common::{Name, Point};

/// A spare cell of the stock: its name, its placement point in database units, its doubled centre, and its number among all
/// components in the order of the design's text, from 0.
#[derive(Drop)]
pub struct Spare {
    pub name: Name,
    pub point: Point,
    pub centre: Point,
    pub comp: u32,
}

/// The stock of a netlist, in the order of its components.
#[derive(Drop)]
pub struct Stock {
    pub spares: Vec<Spare>,
    /// For each component, whether it is stock.
    pub marks: Vec<bool>,
    /// How many spare-named components aren't stock.
    pub skipped: u32,
}
