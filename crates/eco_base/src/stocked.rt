//! A base's stock, and its netlist without the stock.

use crate::Spare;
use crate::census::Census;
use eco_func::MasterFn;
use eco_net::Netlist;

/// A base's stock, and its netlist without the stock.
#[derive(Drop)]
pub struct Stocked {
    pub netlist: Netlist,
    pub spares: Vec<Spare>,
    /// What each spare computes.
    pub functions: Vec<MasterFn>,
    /// How many spare-named components aren't stock.
    pub skipped: u32,
    pub census: Census,
    /// The greatest depth of a gate of the netlist, and 0 where there is none.
    pub depth: u32,
}
