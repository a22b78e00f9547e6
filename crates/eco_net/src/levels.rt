//! Levels: an order in which a netlist can be evaluated, or a loop.

use crate::netlist::Netlist;
use crate::search::Stop;
use eco_common::{Memory, Name};
use std::alloc::Global;
use std::fmt::{self, Display, Formatter, Write};
use std::marker::Model;
use thiserror::Error;

/// The computed nets of a loop-free netlist, each after all computed nets that its driver reads, and how deep its gates
/// stand.
#[derive(Drop)]
pub struct Levels {
    pub(crate) order: Vec<u32>,
    pub(crate) depth: u32,
}

impl Model for Levels {
    ghost use Rattle.eco_net.specs.Levelled.{Levelled};

    ghost Value = { Levelled };

    ghost view = { λ l. record { order = l.order.items; depth = l.depth } };
}

impl Levels {
    ghost use Rattle.std.specs.Prelude.{◌≡◌};

    /// The greatest depth of a gate, and 0 where there is none. A gate's depth is one more than the greatest depth of the
    /// gates that drive the computed nets it reads, and 1 if it reads none.
    pub fn depth(&self) -> u32
        ensures { result ≡ self.now.depth }
    {
        self.depth
    }
}

/// Names of nets.
#[derive(Debug, Drop)]
pub struct Names {
    pub(crate) names: Vec<Name>,
}

impl Model for Names {
    ghost use Rattle.std.specs.Prelude.{List, ℕ};

    ghost Value = { List (List ℕ) };

    ghost view = { λ n. n.names.items };
}

impl Names {
    ghost use Rattle.std.specs.Prelude.{◌≡◌};

    /// The names, in order.
    pub fn as_slice(&self) -> &[Name]
        ensures { result.now ≡ self.now }
    {
        &self.names
    }
}

/// The names with `,` between them.
impl Display for Names {
    fn fmt<W: Write>(&self, f: &mut Formatter<W>) -> fmt::Result {
        for (place, name) in self.names.iter().enumerate() {
            if 0 < place {
                f.write_str(",")?;
            }
            write!(f, "{name}")?;
        }
        Ok(())
    }
}

/// Why a netlist has no levels.
#[derive(Debug, Drop, Error)]
pub enum LoopFault {
    /// A closed walk of computed nets: each stands once and is read by the driver of the next, the last by that of the
    /// first, which is the least by bytes.
    #[error("Loop nets={nets}")]
    Loop { nets: Names },
    /// Memory ran out.
    #[error("memory")]
    Memory,
}

impl From<Memory> for LoopFault {
    ghost use Rattle.std.specs.Prelude.{◌≡◌};
    ghost use Rattle.eco_net.specs.declared.levels.LoopFault.TheVariants.{Memory};

    ghost from_gives = { λ _ e. e ≡ Memory };

    fn from(_: Memory) -> LoopFault {
        LoopFault::Memory
    }
}

impl Netlist {
    ghost use Rattle.std.specs.Prelude.{◌≡◌, ◌<◌, IfOk, IfErr, map, length};
    ghost use Rattle.std.specs.List.{All};
    ghost use Rattle.eco_net.specs.Walks.{IsLoopFree};
    ghost use Rattle.eco_net.specs.Listing.{Listing, netlist, net_name};
    ghost use Rattle.eco_net.specs.Search.{IsEvaluationOrder};
    ghost use Rattle.eco_net.specs.LevelsOf.{LoopIs, IsLevels};

    /// Levels, or a loop exactly where a closed walk of computed nets exists.
    pub fn levels(&self, alloc: Global) -> Result<Levels, LoopFault>
        ensures ok { IfOk result (λ l. IsLevels self.now l) }
        ensures stop { IfErr result (λ e. LoopIs (netlist self.now) e) }
    {
        self.facts();
        match self.order(alloc) {
            Ok(order) => {
                let depth = self.depth(alloc, &order)?;
                Ok(Levels { order, depth })
            }
            Err(Stop::Memory) => Err(LoopFault::Memory),
            Err(Stop::Ring(ring)) => {
                let first = self.least(&ring);
                let nets = self.names_from(alloc, &ring, first)?;
                Err(LoopFault::Loop { nets })
            }
        }
    }
}
