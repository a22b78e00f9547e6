//! The forms of names that an order gives.

ghost use Rattle.std.specs.Prelude.{◌≡◌, codes};
ghost use Rattle.std.specs.List.{list_all};
ghost use Rattle.std.specs.Str.{bytes_eq};
ghost use Rattle.eco_order_file.specs.Names.{begins_net as can_begin_net, is_label_byte as can_be_in_label, is_net_byte as can_be_in_net, is_label as can_be_label, can_be_new as can_be_new_net};

use crate::limits::{MAX_LABEL_BYTES, MAX_NEW_NET_BYTES};

/// Whether the byte is a letter or `_`.
fn begins_net(byte: u8) -> bool
    ensures { result ≡ can_begin_net byte }
{
    matches!(byte, b'A'..=b'Z' | b'a'..=b'z' | b'_')
}

/// Whether the byte is a letter, a digit or `_`.
fn is_label_byte(byte: u8) -> bool
    ensures { result ≡ can_be_in_label byte }
{
    begins_net(byte) || byte.is_ascii_digit()
}

/// Whether the byte is a letter, a digit or one of `_ [ ] / . $`.
fn is_net_byte(byte: u8) -> bool
    ensures { result ≡ can_be_in_net byte }
{
    begins_net(byte) || matches!(byte, b'0'..=b'9' | b'[' | b']' | b'/' | b'.' | b'$')
}

fn are_label_bytes(bytes: &[u8]) -> bool
    ensures { result ≡ list_all can_be_in_label bytes.now }
{
    bytes.iter().all(|byte| is_label_byte(*byte))
}

fn are_net_bytes(bytes: &[u8]) -> bool
    ensures { result ≡ list_all can_be_in_net bytes.now }
{
    bytes.iter().all(|byte| is_net_byte(*byte))
}

/// Whether a DEF statement with this name would be of another kind.
fn begins_statement(name: &[u8]) -> bool
    ensures { result ≡ bytes_eq name.now (codes "MUSTJOIN") }
{
    name == b"MUSTJOIN".as_slice()
}

/// Whether an order, a person or a gate can have the name: a letter, then letters, digits and `_`, 64 bytes at most.
pub fn is_label(name: &[u8]) -> bool
    ensures { result ≡ can_be_label name.now }
{
    match name.split_first() {
        None => false,
        Some((first, rest)) => {
            first.is_ascii_alphabetic() && are_label_bytes(rest) && name.len() <= MAX_LABEL_BYTES
        }
    }
}

/// Whether a new net can have the name: a letter or `_`, then letters, digits and `_ [ ] / . $`, 255 bytes at most, and
/// not `MUSTJOIN`, which begins another kind of DEF statement.
pub fn can_be_new(name: &[u8]) -> bool
    ensures { result ≡ can_be_new_net name.now }
{
    match name.split_first() {
        None => false,
        Some((first, rest)) => {
            begins_net(*first)
                && are_net_bytes(rest)
                && name.len() <= MAX_NEW_NET_BYTES
                && !begins_statement(name)
        }
    }
}
