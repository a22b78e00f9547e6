//! How much a link may send: the desk's own limits, within what RFC 9112, section 3, leaves to a server.

/// A head has at most this many bytes.
pub const HEAD_BYTES: usize = 16_384;

/// A head has at most this many header lines.
pub const HEAD_LINES: usize = 64;

/// A body has at most this many bytes.
pub const BODY_BYTES: usize = 131_072;

/// At most this many requests are answered on a link.
pub const LINK_REQUESTS: u32 = 1_000;
