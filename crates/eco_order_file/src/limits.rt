//! Limits of orders.

/// The most new nets of an order.
pub const MAX_ORDER_NETS: usize = 640;

/// The most gates of an order.
pub const MAX_ORDER_GATES: usize = 128;

/// The most moves of an order.
pub const MAX_ORDER_MOVES: usize = 512;

/// The most inputs of a gate.
pub const MAX_GATE_INPUTS: usize = 6;

/// The longest name of an order, of a person or of a gate, in bytes.
pub const MAX_LABEL_BYTES: usize = 64;

/// The longest name of a new net, in bytes.
pub const MAX_NEW_NET_BYTES: usize = 255;
