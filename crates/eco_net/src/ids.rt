//! Numbers of nets, components and top pins, in the order in which they were added.

/// The number of a net.
#[derive(Clone, Copy, Debug, Drop, PartialEq, Eq)]
pub struct NetId(pub u32);

/// The number of a component.
#[derive(Clone, Copy, Debug, Drop, PartialEq, Eq)]
pub struct CompId(pub u32);

/// A component that was looked up: its number and how many pins it has, by which its pins are found.
#[derive(Clone, Copy, Debug, Drop, PartialEq, Eq)]
pub struct FoundComp {
    pub id: CompId,
    pub pins: u32,
}

/// The number of a top pin.
#[derive(Clone, Copy, Debug, Drop, PartialEq, Eq)]
pub struct TopId(pub u32);

/// A pin of the chip, or a pin of a component by its number: a gate's inputs come first, then its outputs; a box's pins
/// stand in the order of its list.
#[derive(Clone, Copy, Debug, Drop, PartialEq, Eq)]
pub enum PinRef {
    Top(TopId),
    Pin(CompId, u32),
}

/// How many nets, components and top pins a netlist has.
#[derive(Clone, Copy, Debug, Drop, PartialEq, Eq)]
pub struct Counts {
    pub nets: u32,
    pub comps: u32,
    pub tops: u32,
}
