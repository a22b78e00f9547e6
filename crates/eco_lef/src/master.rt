//! Masters of a library.

use eco_common::{Dir, Name};
use sqlite_items::Items;

/// A pin of a master. `supply` says that its `USE` is POWER or GROUND.
#[derive(Drop)]
pub struct MasterPin {
    pub name: Name,
    pub dir: Dir,
    pub supply: bool,
}

/// A macro: its name, its size in millionths of a micron, and its pins in order.
#[derive(Drop)]
pub struct Master {
    pub name: Name,
    pub width: u64,
    pub height: u64,
    pub pins: Items<MasterPin>,
}
