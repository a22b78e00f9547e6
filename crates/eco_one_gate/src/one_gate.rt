//! One patch gate on one named spare.

use eco_common::Name;
use eco_embed::Feed;
use eco_func::Table;

/// A patch gate, the spare that it goes to, and the pin that is moved to its output.
#[derive(Drop)]
pub struct OneGate {
    /// The component that becomes the gate.
    pub spare: Name,
    /// The gate's values.
    pub table: Table,
    /// The nets at the gate's inputs, in the order of a row's bits.
    pub inputs: Vec<Name>,
    /// What each input pin of the spare is tied to, in the order of its master.
    pub feeds: Vec<Feed>,
    /// The new net that the gate drives.
    pub output: Name,
    /// The component and the pin of it that is moved from a net to that new one.
    pub comp: Name,
    pub pin: Name,
    pub from_net: Name,
}
