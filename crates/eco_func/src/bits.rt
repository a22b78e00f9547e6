//! Tables as texts of 0 and 1.

ghost use Rattle.std.specs.Prelude.{◌≡◌, ◌≤◌, ◌<◌, ◌^◌, Option, Some, None, if◌then◌else◌, length, map, IfSome};
ghost use Rattle.std.specs.List.{list_all};
ghost use Rattle.eco_func.specs.Tables.{row};
ghost use Rattle.eco_func.specs.FunctionsFile.{is_bit, is_one, table_of};

use crate::table::Table;
use eco_common::{MAX_INPUTS, MAX_ROWS};

/// The bits of a text of 0 and 1, its first character lowest.
fn bits_of(text: &[u8]) -> Option<u64>
    requires { length text.now ≤ MAX_ROWS }
    ensures value { result ≡ (if list_all is_bit text.now then Some (row (map is_one text.now)) else None) }
    ensures fits { IfSome result (λ bits. bits < 2 ^ length text.now) }
{
    let mut bits = 0;
    for (place, byte) in text.iter().enumerate() {
        match *byte {
            b'0' => {}
            b'1' => bits += 1 << place,
            _ => return None,
        }
    }
    Some(bits)
}

/// Whether a text has only 0 and 1.
pub fn has_only_bits(text: &[u8]) -> bool
    ensures { result ≡ list_all is_bit text.now }
{
    text.iter().all(|byte| *byte == b'0' || *byte == b'1')
}

/// The table of a text with a character 0 or 1 for each row, row 0 first.
pub fn read_table(inputs: u8, text: &[u8]) -> Option<Table>
    requires { inputs ≤ MAX_INPUTS }
    ensures { result ≡ table_of inputs text.now }
{
    if text.len() != 1 << inputs {
        return None;
    }
    Table::new(inputs, bits_of(text)?)
}
