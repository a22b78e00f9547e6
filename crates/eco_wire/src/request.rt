//! What the front of a link's bytes holds.

/// The bytes from `start` up to `start + len`, counted from the first byte that was given.
#[derive(Clone, Copy, Debug, PartialEq, Eq)]
pub struct Span {
    pub start: usize,
    pub len: usize,
}

/// A request's method, byte by byte: `GET`, `POST`, or any other token (RFC 9110, section 9.1).
#[derive(Clone, Copy, Debug, PartialEq, Eq)]
pub enum Method {
    Get,
    Post,
    Other,
}

/// A whole request.
#[derive(Clone, Copy, Debug, PartialEq, Eq)]
pub struct Request {
    pub method: Method,
    /// The target of the request line, as it was sent.
    pub path: Span,
    pub body: Span,
    /// The bytes of head and body together.
    pub used: usize,
    /// Whether the link ends with this request.
    pub close: bool,
}

/// The next request of a link.
#[derive(Clone, Copy, Debug, PartialEq, Eq)]
pub enum Next {
    /// The head or the body isn't whole yet.
    NeedMore,
    Request(Request),
    /// The bytes are no request that is served; the link is answered with this status and ends.
    Broken { status: u16 },
}
