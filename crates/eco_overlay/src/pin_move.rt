//! One pin on its new net.

/// A pin of a component, the net that it is put on, and whether it stands there already.
#[derive(Clone, Copy, Drop)]
pub struct PinMove<'a> {
    pub comp: &'a [u8],
    pub pin: &'a [u8],
    pub net: &'a [u8],
    pub stands: bool,
}
