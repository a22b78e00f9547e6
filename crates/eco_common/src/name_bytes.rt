//! The bytes of names: LEF/DEF 5.8, "Typographic and syntax conventions".

ghost use Rattle.std.specs.Prelude.{◌≡◌};
ghost use Rattle.std.specs.List.{list_all};
ghost use Rattle.eco_common.specs.NameBytes.{is_name_byte, is_mark as mark, is_name as can_be_name};

use crate::limits::MAX_NAME_BYTES;

fn has_name_bytes(bytes: &[u8]) -> bool
    ensures { result ≡ list_all is_name_byte bytes.now }
{
    bytes.iter().all(|byte| 33 <= *byte && *byte <= 126)
}

/// Whether these bytes can be a name: 1 to 1,024 bytes, each printable and no blank.
pub fn is_name(bytes: &[u8]) -> bool
    ensures { result ≡ can_be_name bytes.now }
{
    1 <= bytes.len() && bytes.len() <= MAX_NAME_BYTES && has_name_bytes(bytes)
}

/// Whether the word is one of the five that stand for themselves in a text: `;`, `(`, `)`, `+` and `-`.
pub fn is_mark(word: &[u8]) -> bool
    ensures { result ≡ mark word.now }
{
    match word {
        [byte] => matches!(byte, b';' | b'(' | b')' | b'+' | b'-'),
        _ => false,
    }
}
