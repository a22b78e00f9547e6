//! Requests, routes and reply heads of the desk's HTTP.
//!
//! A message has a form after RFC 9110 and RFC 9112, as docs/FORMATS.md has it. Heads are read with `httparse`, and
//! its grammar is what the contracts speak of.
#![tactic(auto)]

mod fields;
mod limits;
mod numbers;
mod reading;
mod reply;
mod request;
mod router;
mod routes;
mod stream;

pub use crate::limits::{BODY_BYTES, HEAD_BYTES, HEAD_LINES, LINK_REQUESTS};
pub use crate::reading::next_request;
pub use crate::reply::{BodyKind, reply_head};
pub use crate::request::{Method, Next, Request, Span};
pub use crate::router::{Router, routes_are_one};
pub use crate::routes::{Route, RouteFault};
pub use crate::stream::{
    links_read_streams, pieces_dont_matter, readings_are_one, readings_stay, refusals_have_heads,
    unfinished_is_short,
};
pub use eco_common::Memory;

#[cfg(test)]
mod tests;
