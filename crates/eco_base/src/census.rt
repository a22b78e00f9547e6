//! Counts of what a base has.

ghost use Rattle.std.specs.Prelude.{◌≡◌, ◌<◌, Some, length, slice_get, count_by};
ghost use Rattle.std.specs.Option.{option_map};
ghost use Rattle.eco_base.specs.Census.{is_gate_row, IsCensusOfRows};

use crate::Stock;
use eco_net::{CompId, Kind, NetlistMaker};

/// Counts of what a base has.
#[derive(Clone, Copy, Debug, Drop, PartialEq, Eq)]
pub struct Census {
    /// The components of the design, with the stock.
    pub components: u64,
    /// Those of them that are gates, with the stock.
    pub gates: u64,
    /// Those of them that aren't gates.
    pub boxes: u64,
    pub nets: u64,
    /// The pins that are on a net: those of components, with the stock, and the chip's own. Supply pins aren't counted.
    pub pins: u64,
    /// The spares of the stock.
    pub stock: u64,
    /// The spare-named components that aren't in the stock.
    pub skipped: u64,
}

/// Whether a component is a gate.
fn is_gate(net: &NetlistMaker, comp: CompId) -> bool
    requires { comp.0 < length net.now.comps }
    ensures { option_map is_gate_row (slice_get net.now.comps comp.0) ≡ Some result }
{
    match net.kind(comp) {
        Kind::Gate(_) => true,
        Kind::Boxed(_) => false,
    }
}

/// How many components are gates.
fn count_gates(net: &NetlistMaker) -> u32
    ensures { result ≡ count_by is_gate_row net.now.comps }
{
    let mut gates = 0;
    for comp in 0..net.counts().comps {
        gates += u32::from(is_gate(net, CompId(comp)));
    }
    gates
}

/// The counts of the netlist of all components, whose stock this is.
pub fn census_of(net: &NetlistMaker, stock: &Stock) -> Census
    ensures { IsCensusOfRows net.now stock.now result }
{
    let counts = net.counts();
    let gates = count_gates(net);
    Census {
        components: u64::from(counts.comps),
        gates: u64::from(gates),
        boxes: u64::from(counts.comps - gates),
        nets: u64::from(counts.nets),
        pins: net.joined_pins() + u64::from(counts.tops),
        stock: stock.spares.len() as u64,
        skipped: u64::from(stock.skipped),
    }
}
