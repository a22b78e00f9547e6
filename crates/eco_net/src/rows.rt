//! What was listed of each net, component and top pin.

ghost use Rattle.std.specs.Prelude.{◌≡◌, IfOk};

use crate::joints::Joints;
use crate::kind::Kind;
use eco_common::{Dir, Memory, Name, Point};
use std::alloc::Global;

/// A net: its name, its value if it is a supply, and whether it is a tie net.
#[derive(Drop)]
pub struct NetRow {
    pub name: Name,
    pub supply: Option<bool>,
    pub tie: bool,
}

/// A component: its name, what it is, its place and the nets of its pins.
#[derive(Drop)]
pub struct CompRow {
    pub name: Name,
    pub kind: Kind,
    pub place: Option<Point>,
    pub joined: Joints,
}

/// A top pin: its name, its direction and the number of its net.
#[derive(Drop)]
pub struct TopRow {
    pub name: Name,
    pub dir: Dir,
    pub net: u32,
}

impl NetRow {
    /// The same row.
    pub(crate) fn copy(&self, alloc: Global) -> Result<NetRow, Memory>
        ensures { IfOk result (λ r. r ≡ self.now) }
    {
        Ok(NetRow {
            name: self.name.copy(alloc)?,
            supply: self.supply,
            tie: self.tie,
        })
    }
}

impl CompRow {
    /// The same row.
    pub(crate) fn copy(&self, alloc: Global) -> Result<CompRow, Memory>
        ensures { IfOk result (λ r. r ≡ self.now) }
    {
        Ok(CompRow {
            name: self.name.copy(alloc)?,
            kind: self.kind.copy()?,
            place: self.place,
            joined: self.joined.copy(alloc)?,
        })
    }
}

impl TopRow {
    /// The same row.
    pub(crate) fn copy(&self, alloc: Global) -> Result<TopRow, Memory>
        ensures { IfOk result (λ r. r ≡ self.now) }
    {
        Ok(TopRow {
            name: self.name.copy(alloc)?,
            dir: self.dir,
            net: self.net,
        })
    }
}
