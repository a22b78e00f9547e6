//! The values at all rows of a table, a bit for each.

ghost use Rattle.std.specs.Prelude.{◌≡◌, ◌<◌, ◌≤◌, ◌-◌, ◌^◌, ℕ};
ghost use Rattle.eco_func.specs.Tables.{bit};

use eco_common::{MAX_INPUTS, MAX_ROWS};

/// The values of an input at all rows.
pub fn input_column(input: u8) -> u64
    requires { input < MAX_INPUTS }
    ensures { (r : ℕ) → r < MAX_ROWS → bit result r ≡ bit r input }
{
    match input {
        0 => 0xaaaa_aaaa_aaaa_aaaa,
        1 => 0xcccc_cccc_cccc_cccc,
        2 => 0xf0f0_f0f0_f0f0_f0f0,
        3 => 0xff00_ff00_ff00_ff00,
        4 => 0xffff_0000_ffff_0000,
        _ => 0xffff_ffff_0000_0000,
    }
}

/// The word with 1 at each row of so many inputs.
pub fn low_rows(inputs: u8) -> u64
    requires { inputs ≤ MAX_INPUTS }
    ensures { result ≡ 2 ^ (2 ^ inputs) - 1 }
{
    u64::MAX >> (MAX_ROWS - (1u32 << inputs))
}
