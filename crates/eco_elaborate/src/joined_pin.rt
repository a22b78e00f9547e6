//! A pin on its net.

use eco_net::{CompId, NetId};

/// A pin of a component and the net that it is put on, by the numbers of a listing.
#[derive(Clone, Copy, Debug, Drop, PartialEq, Eq)]
pub struct JoinedPin {
    pub comp: CompId,
    pub pin: u32,
    pub net: NetId,
}
