//! What stands at the top level of a design.

use crate::design::{Comp, NetStatement, TopPin};
use crate::room::Room;
use eco_text::Word;
use sqlite_items::Items;

/// NETS: its count word, its statements, and where its `END` stands.
#[derive(Debug, Drop)]
pub struct NetSection {
    pub count: Word,
    pub nets: Items<NetStatement>,
    pub end: u32,
}

/// One statement or section.
#[derive(Debug, Drop)]
pub enum Part {
    Passed,
    Units(u32),
    Comps(Items<Comp>),
    Pins(Items<TopPin>),
    Special(Items<NetStatement>),
    Nets(NetSection),
}

/// What was read so far. Of several UNITS the last counts.
#[derive(Debug, Drop)]
pub struct Sections {
    pub units: Option<u32>,
    pub comps: Option<Items<Comp>>,
    pub pins: Option<Items<TopPin>>,
    pub special: Option<Items<NetStatement>>,
    pub nets: Option<NetSection>,
    /// Whether SPECIALNETS stands before NETS, where both stand.
    pub special_first: bool,
    /// What SPECIALNETS and NETS have left.
    pub room: Room,
}
