//! The depth of gates: how many stand one after another.

ghost use Rattle.std.specs.Prelude.{◌≡◌, ◌<◌, ◌+◌, ◌^◌, suc, length, IfOk};
ghost use Rattle.std.specs.Option.{IfSome};
ghost use Rattle.eco_net.specs.Listing.{Listing, netlist};
ghost use Rattle.eco_net.specs.Gates.{inputs_at};
ghost use Rattle.eco_net.specs.Depth.{IsDepth};
ghost use Rattle.eco_net.specs.Search.{IsEvaluationOrder};
ghost use Rattle.eco_net.specs.DepthsOf.{depth_at, gate_depth, AreDepths};

use crate::kind::Kind;
use crate::netlist::Netlist;
use eco_common::Memory;
use std::alloc::Global;

/// The depth of a net that a gate reads, and 0 where the pin is unconnected.
fn depth_at(depths: &[u32], net: Option<u32>) -> u32
    requires { IfSome net (λ n. n < length depths.now) }
    ensures { result ≡ depth_at depths.now net }
{
    match net {
        Some(net) => depths[net as usize],
        None => 0,
    }
}

impl Netlist {
    /// The depth of a gate, from the depths of the nets that it reads.
    fn gate_depth(&self, depths: &[u32], comp: u32) -> u32
        requires known { comp < length self.now.comps }
        requires sized { length depths.now ≡ length self.now.nets }
        requires fits { gate_depth self.now depths.now comp < 2 ^ 32 }
        ensures { result ≡ gate_depth self.now depths.now comp }
    {
        let row = self.listed.comp(comp);
        let mut deepest = 0;
        for input in 0..row.kind.input_count() {
            deepest = depth_at(depths, row.joined.get(input)).max(deepest);
        }
        deepest + 1
    }

    /// The depth of each computed net, which is that of its gate, and 0 at other nets.
    fn net_depths(&self, alloc: Global, order: &[u32]) -> Result<Vec<u32>, Memory>
        requires { IsEvaluationOrder self.now order.now }
        ensures { IfOk result (λ ds. AreDepths self.now ds.items) }
    {
        let mut depths = vec![in alloc; 0; self.listed.net_count() as usize]?;
        for net in order {
            if let Some((comp, _)) = self.gate_of(*net) {
                let depth = self.gate_depth(&depths, comp.0);
                depths[*net as usize] = depth;
            }
        }
        Ok(depths)
    }

    /// The greatest depth of a gate, and 0 where there is none.
    fn greatest_depth(&self, depths: &[u32]) -> u32
        requires { AreDepths self.now depths.now }
        ensures { IsDepth (netlist self.now) result }
    {
        let mut greatest = 0;
        for comp in 0..self.counts().comps {
            if let Kind::Gate(_) = &self.listed.comp(comp).kind {
                greatest = self.gate_depth(depths, comp).max(greatest);
            }
        }
        greatest
    }

    /// The greatest depth of a gate, by an order of the computed nets.
    pub(crate) fn depth(&self, alloc: Global, order: &[u32]) -> Result<u32, Memory>
        requires { IsEvaluationOrder self.now order.now }
        ensures { IfOk result (λ d. IsDepth (netlist self.now) d) }
    {
        let depths = self.net_depths(alloc, order)?;
        Ok(self.greatest_depth(&depths))
    }
}
