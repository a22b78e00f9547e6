//! The next request of a link.

ghost use Rattle.std.specs.Prelude.{◌≡◌, ◌≤◌, length, drop};
ghost use Rattle.httparse.specs.Spans.{IsHeaderWithin};
ghost use Rattle.eco_wire.specs.Heads.{Fits, head_at, method_of, answer_to};
ghost use Rattle.eco_wire.specs.Requests.{IsNext, reading_of, ArePlaced};

use crate::fields::{ContentLength, asks_to_close, content_length, has_line};
use crate::limits::{BODY_BYTES, HEAD_BYTES, HEAD_LINES};
use crate::request::{Method, Next, Request, Span};
use httparse::spans::{EMPTY_HEADER_SPAN, HeaderSpan, RequestSpans, parse_request};
use httparse::{Error, Status};

fn method_named(name: &[u8]) -> Method
    ensures { result ≡ method_of name.now }
{
    match name {
        b"GET" => Method::Get,
        b"POST" => Method::Post,
        _ => Method::Other,
    }
}

/// The answer to a whole head and to the bytes after it.
fn answer(bytes: &[u8], head: &RequestSpans, fields: &[HeaderSpan]) -> Next
    requires { Fits bytes.now head.now fields.now }
    ensures reads { reading_of bytes.now result ≡ answer_to (head_at bytes.now head.now fields.now) (drop head.now.len bytes.now) }
    ensures places { ArePlaced (length bytes.now) result }
{
    if has_line(bytes, fields, b"transfer-encoding") {
        return Next::Broken { status: 501 };
    }
    let method = method_named(head.method.of(bytes));
    let stated = match content_length(bytes, fields) {
        ContentLength::Unreadable => return Next::Broken { status: 400 },
        ContentLength::Missing if method == Method::Post => return Next::Broken { status: 411 },
        ContentLength::Missing => 0,
        ContentLength::Bytes(number) => number,
    };
    if stated > BODY_BYTES as u128 {
        return Next::Broken { status: 413 };
    }
    let len = stated as usize;
    if bytes.len() - head.len < len {
        return Next::NeedMore;
    }
    Next::Request(Request {
        method,
        path: Span {
            start: head.path.start,
            len: head.path.end - head.path.start,
        },
        body: Span {
            start: head.len,
            len,
        },
        used: head.len + len,
        close: head.version == 0 || asks_to_close(bytes, fields),
    })
}

/// The next request at the front of the bytes of a link (RFC 9112, section 2). It takes no memory.
pub fn next_request(bytes: &[u8]) -> Next
    ensures reads { IsNext bytes.now (reading_of bytes.now result) }
    ensures places { ArePlaced (length bytes.now) result }
{
    let mut fields = [EMPTY_HEADER_SPAN; HEAD_LINES];
    match parse_request(bytes, &mut fields) {
        Ok(Status::Complete(head)) => {
            if HEAD_BYTES < head.len {
                return Next::Broken { status: 431 };
            }
            answer(bytes, &head, &fields[..head.headers])
        }
        Ok(Status::Partial) => {
            if HEAD_BYTES <= bytes.len() {
                return Next::Broken { status: 431 };
            }
            Next::NeedMore
        }
        Err(Error::TooManyHeaders) => Next::Broken { status: 431 },
        Err(_) => Next::Broken { status: 400 },
    }
}
