//! What a DEF text says, by places in the text.

use crate::joints::Joints;
use crate::place::Place;
use eco_common::Dir;
use eco_text::Word;
use sqlite_items::Items;

/// A component: its name, its macro, and its place where it is placed.
#[derive(Clone, Copy, Debug, Drop, PartialEq, Eq)]
pub struct Comp {
    pub name: Word,
    pub model: Word,
    pub place: Option<Place>,
}

/// A pin of the design itself. `supply` says that its `USE` is POWER or GROUND.
#[derive(Clone, Copy, Debug, Drop, PartialEq, Eq)]
pub struct TopPin {
    pub name: Word,
    pub net: Word,
    pub dir: Dir,
    pub supply: bool,
}

/// `( comp pin )` in a net's statement, from its opening bracket up to and with its closing one. A top pin has the word
/// `PIN` as `comp`.
#[derive(Clone, Copy, Debug, Drop, PartialEq, Eq)]
pub struct Joint {
    pub comp: Word,
    pub pin: Word,
    pub start: u32,
    pub end: u32,
}

/// A statement of NETS, or where `special` of SPECIALNETS, from its `-` up to and with its `;`.
#[derive(Debug, Drop)]
pub struct NetStatement {
    pub name: Word,
    pub special: bool,
    pub start: u32,
    pub end: u32,
    /// The word of the first `+ USE`.
    pub usage: Option<Word>,
    pub joints: Joints,
}

/// A design, in the order of its text.
#[derive(Debug, Drop)]
pub struct Design {
    /// Database units per micron, of the last UNITS statement.
    pub units: u32,
    pub comps: Items<Comp>,
    pub pins: Items<TopPin>,
    pub nets: Items<NetStatement>,
    /// The count word of NETS.
    pub net_count: Word,
    /// Where the `END` of NETS stands.
    pub nets_end: u32,
}
