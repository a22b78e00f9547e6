//! Heads of replies.

ghost use Rattle.std.specs.Prelude.{◌≡◌, ◌++◌, IfOk, OnOk, IsSome, IsTrue, Some, [], option_map, unwrap_or, string_bytes};
ghost use Rattle.eco_wire.specs.Replies.{phrase_of, media_of, fits_allow, common_lines_of, allow_line, close_line, reply_head_of};

use eco_common::Memory;
use std::alloc::{AllocError, Global};

/// What a reply's body is.
#[derive(Clone, Copy, Debug, PartialEq, Eq)]
pub enum BodyKind {
    Json,
    Plain,
}

impl BodyKind {
    fn media_type(self) -> &'static str
        ensures { result.now ≡ media_of self }
    {
        match self {
            BodyKind::Json => "application/json",
            BodyKind::Plain => "text/plain",
        }
    }
}

fn phrase(status: u16) -> &'static str
    requires { IsSome (phrase_of status) }
    ensures { phrase_of status ≡ Some result.now }
{
    match status {
        200 => "OK",
        400 => "Bad Request",
        404 => "Not Found",
        405 => "Method Not Allowed",
        409 => "Conflict",
        411 => "Length Required",
        413 => "Content Too Large",
        422 => "Unprocessable Content",
        431 => "Request Header Fields Too Large",
        500 => "Internal Server Error",
        501 => "Not Implemented",
        503 => "Service Unavailable",
        _ => unreachable!(),
    }
}

fn append(head: &mut Vec<u8>, text: &str) -> Result<(), Memory>
    ensures { OnOk result (head.new.items ≡ head.old.items ++ text.now) }
{
    head.extend_from_slice(text.as_bytes()).map_err(|_| Memory)
}

fn format_lines(
    alloc: Global,
    status: u16,
    phrase: &str,
    media: &str,
    len: u64,
) -> Result<String, AllocError>
    ensures { IfOk result (λ lines. string_bytes lines ≡ common_lines_of status phrase.now media.now len) }
{
    format!(in alloc;
        "HTTP/1.1 {status} {phrase}\r\nContent-Type: {media}\r\nContent-Length: {len}\r\n"
    )
}

/// The lines that each reply has.
fn common_lines(alloc: Global, status: u16, kind: BodyKind, len: u64) -> Result<Vec<u8>, Memory>
    requires { IsSome (phrase_of status) }
    ensures { IfOk result (λ head. head.items ≡ common_lines_of status (unwrap_or (phrase_of status) []) (media_of kind) len) }
{
    match format_lines(alloc, status, phrase(status), kind.media_type(), len) {
        Ok(lines) => Ok(lines.into_bytes()),
        Err(_) => Err(Memory),
    }
}

fn append_allow(head: &mut Vec<u8>, allow: Option<&str>) -> Result<(), Memory>
    ensures { OnOk result (head.new.items ≡ head.old.items ++ allow_line (option_map (λ method. method.now) allow.entry)) }
{
    let Some(method) = allow else {
        return Ok(());
    };
    append(head, "Allow: ")?;
    append(head, method)?;
    append(head, "\r\n")
}

fn append_close(head: &mut Vec<u8>, close: bool) -> Result<(), Memory>
    ensures { OnOk result (head.new.items ≡ head.old.items ++ close_line close) }
{
    if !close {
        return Ok(());
    }
    append(head, "Connection: close\r\n")
}

/// The head of a reply with a body of `len` bytes, up to and with its empty line (RFC 9112, section 4).
///
/// `allow` is the method that is allowed, for status 405 alone. `close` says that the link ends with this reply.
pub fn reply_head(
    alloc: Global,
    status: u16,
    kind: BodyKind,
    len: u64,
    allow: Option<&str>,
    close: bool,
) -> Result<Vec<u8>, Memory>
    requires status { IsSome (phrase_of status) }
    requires allow { IsTrue (fits_allow status (option_map (λ method. method.now) allow)) }
    ensures { IfOk result (λ head. head.items ≡ reply_head_of status kind len (option_map (λ method. method.now) allow.entry) close) }
{
    let mut head = common_lines(alloc, status, kind, len)?;
    append_allow(&mut head, allow)?;
    append_close(&mut head, close)?;
    append(&mut head, "\r\n")?;
    Ok(head)
}
