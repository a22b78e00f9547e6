//! Header lines by name (RFC 9110, section 5; RFC 9112, sections 6 and 9.6).

ghost use Rattle.std.specs.Prelude.{◌≡◌, ◌==◌, map, length, reverse, position, All, codes};
ghost use Rattle.httparse.specs.Ascii.{comma};
ghost use Rattle.httparse.specs.Grammar.{skip_ows};
ghost use Rattle.httparse.specs.Spans.{IsHeaderWithin, header_bytes};
ghost use Rattle.eco_wire.specs.Lines.{is_named, has_line, values_of, content_length_of, EndsAt, is_close, lists_close, asks_to_close};

use crate::numbers::read_digits;
use httparse::spans::HeaderSpan;

/// What the Content-Length lines of a head say.
#[derive(Clone, Copy, Debug, PartialEq, Eq)]
pub(crate) enum ContentLength {
    Missing,
    Bytes(u128),
    /// More than one line, or a value that isn't 1 to 20 digits.
    Unreadable,
}

/// Whether a header line has this name, in any case of letters.
fn is_named(bytes: &[u8], field: &HeaderSpan, name: &[u8]) -> bool
    requires { IsHeaderWithin (length bytes.now) field.now }
    ensures { result ≡ is_named name.now (header_bytes bytes.now field.now) }
{
    field.name.of(bytes).eq_ignore_ascii_case(name)
}

/// Whether a header line has this name.
pub(crate) fn has_line(bytes: &[u8], fields: &[HeaderSpan], name: &[u8]) -> bool
    requires { All (IsHeaderWithin (length bytes.now)) fields.now }
    ensures { result ≡ has_line name.now (map (header_bytes bytes.now) fields.now) }
{
    for field in fields {
        if is_named(bytes, field, name) {
            return true;
        }
    }
    false
}

/// What the Content-Length lines say of the body.
pub(crate) fn content_length(bytes: &[u8], fields: &[HeaderSpan]) -> ContentLength
    requires { All (IsHeaderWithin (length bytes.now)) fields.now }
    ensures { result ≡ content_length_of (values_of (codes "content-length") (map (header_bytes bytes.now) fields.now)) }
{
    let mut stated = ContentLength::Missing;
    for field in fields {
        if is_named(bytes, field, b"content-length") {
            stated = match (stated, read_digits(field.value.of(bytes))) {
                (ContentLength::Missing, Some(number)) => ContentLength::Bytes(number),
                _ => return ContentLength::Unreadable,
            };
        }
    }
    stated
}

/// The bytes from the first that is no blank or tab.
fn after_blanks(text: &[u8]) -> &[u8]
    ensures { result.now ≡ skip_ows text.now }
{
    let mut rest = text;
    while let [b' ' | b'\t', others @ ..] = rest {
        rest = others;
    }
    rest
}

/// The bytes up to the last that is no blank or tab.
fn before_blanks(text: &[u8]) -> &[u8]
    ensures { reverse result.now ≡ skip_ows (reverse text.now) }
{
    let mut rest = text;
    while let [before @ .., b' ' | b'\t'] = rest {
        rest = before;
    }
    rest
}

/// Whether an item of a list is the word `close`.
fn is_close(item: &[u8]) -> bool
    ensures { result ≡ is_close item.now }
{
    before_blanks(after_blanks(item)).eq_ignore_ascii_case(b"close")
}

fn first_comma(list: &[u8]) -> Option<usize>
    ensures { result ≡ position (λ b. b == comma) list.now }
{
    list.iter().position(|byte| *byte == b',')
}

/// Where the first item of a list ends, if others follow it.
fn first_end(list: &[u8]) -> Option<usize>
    ensures { EndsAt list.now result }
{
    first_comma(list)
}

/// Whether an item of a Connection line's value is `close`.
fn lists_close(value: &[u8]) -> bool
    ensures { result ≡ lists_close value.now }
{
    let mut rest = value;
    while let Some(end) = first_end(rest) {
        let (item, others) = rest.split_at(end);
        if is_close(item) {
            return true;
        }
        rest = &others[1..];
    }
    is_close(rest)
}

/// Whether a Connection line asks to close the link.
pub(crate) fn asks_to_close(bytes: &[u8], fields: &[HeaderSpan]) -> bool
    requires { All (IsHeaderWithin (length bytes.now)) fields.now }
    ensures { result ≡ asks_to_close (map (header_bytes bytes.now) fields.now) }
{
    for field in fields {
        if is_named(bytes, field, b"connection") && lists_close(field.value.of(bytes)) {
            return true;
        }
    }
    false
}
