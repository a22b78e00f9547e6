//! A pin on a net.

use eco_common::Name;

/// A pin of a component, and the net that it is put on.
#[derive(Drop)]
pub struct NewJoint {
    pub comp: Name,
    pub pin: Name,
    pub net: Name,
}
