//! What changes in the nets of a design.

use crate::pin_move::PinMove;
use eco_common::Names;
use std::collections::BTreeMap;

/// The pins that come to nets where they don't stand, net by net.
pub type Added<'a> = BTreeMap<&'a [u8], Vec<PinMove<'a>>>;

/// The moved pins in order, those that come to each net, the nets with a statement in NETS among these, and the nets
/// that get their first statement, in order.
#[derive(Drop)]
pub struct NetChanges<'a> {
    pub moves: Vec<PinMove<'a>>,
    pub added: Added<'a>,
    pub ordinary: Names<'a>,
    pub fresh: Vec<&'a [u8]>,
}
