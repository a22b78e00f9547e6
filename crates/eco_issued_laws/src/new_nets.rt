//! Names that new nets may have.

ghost use Rattle.std.specs.Prelude.{◌≡◌, codes};
ghost use Rattle.std.specs.List.{list_all};
ghost use Rattle.std.specs.Str.{bytes_eq};
ghost use Rattle.eco_issued_laws.specs.NewNets.{begins_net as is_begin, is_net_byte as is_in_net, can_be_new as can_name_new};

use eco_common::MAX_NEW_NET_BYTES;

/// Whether a new net's name may begin with the byte: a letter or `_`.
fn begins_net(byte: u8) -> bool
    ensures { result ≡ is_begin byte }
{
    matches!(byte, b'A'..=b'Z' | b'a'..=b'z' | b'_')
}

/// Whether the byte may stand in a new net's name: a letter, a digit or one of `_ [ ] / . $`.
fn is_net_byte(byte: u8) -> bool
    ensures { result ≡ is_in_net byte }
{
    begins_net(byte) || matches!(byte, b'0'..=b'9' | b'[' | b']' | b'/' | b'.' | b'$')
}

fn are_net_bytes(bytes: &[u8]) -> bool
    ensures { result ≡ list_all is_in_net bytes.now }
{
    bytes.iter().all(|byte| is_net_byte(*byte))
}

/// Whether the name begins another kind of statement.
fn is_mustjoin(name: &[u8]) -> bool
    ensures { result ≡ bytes_eq name.now (codes "MUSTJOIN") }
{
    name == b"MUSTJOIN".as_slice()
}

/// Whether a new net can have the name.
pub fn can_be_new(name: &[u8]) -> bool
    ensures { result ≡ can_name_new name.now }
{
    match name.split_first() {
        None => false,
        Some((first, rest)) => {
            begins_net(*first)
                && are_net_bytes(rest)
                && name.len() <= MAX_NEW_NET_BYTES
                && !is_mustjoin(name)
        }
    }
}
