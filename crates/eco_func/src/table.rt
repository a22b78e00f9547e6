//! Truth tables of at most six inputs.

ghost use Rattle.std.specs.Prelude.{◌≡◌, ◌<◌, ◌≤◌, ◌^◌, ◌↔◌, IsTrue, length};
ghost use Rattle.eco_func.specs.Tables.{row};

use crate::rows::low_rows;
use eco_common::{MAX_INPUTS, MAX_ROWS};
use std::marker::Model;

/// The value of a logic function at each row of its inputs.
///
/// Bit `r` of `bits` is the value at row `r`. The row of a list of input bits is the sum of `2^i` over the inputs `i`
/// that are 1. Bits past the last row are 0.
#[derive(Clone, Copy, Debug, PartialEq, Eq)]
pub struct Table {
    inputs: u8,
    bits: u64,
}

impl Model for Table {
    ghost use Rattle.eco_func.specs.Tables.{TruthTable, IsTable};

    ghost Value = { TruthTable };

    ghost view = { λ t. record { inputs = t.inputs; bits = t.bits } };

    ghost invariant = { λ t. IsTable t.inputs t.bits };

    ghost inverse = { λ t. record { inputs = t.inputs; bits = t.bits } };
}

impl Table {
    ghost use Rattle.std.specs.Prelude.{◌≡◌, ℕ, ◌<◌, ◌≤◌, ◌^◌, length, MatchOption};
    ghost use Rattle.eco_func.specs.Tables.{TruthTable, IsTable, at, bit, look};

    /// The table with these inputs and bits.
    pub fn new(inputs: u8, bits: u64) -> Option<Table>
        ensures { MatchOption result (¬ IsTable inputs bits) (λ t. (t ≡ record { inputs = inputs; bits = bits }) × IsTable inputs bits) }
    {
        if inputs as usize <= MAX_INPUTS && fits_rows(inputs, bits) {
            Some(Table { inputs, bits })
        } else {
            None
        }
    }

    /// The table with these inputs whose values are the word's first bits.
    pub(crate) fn of_rows(inputs: u8, word: u64) -> Table
        requires { inputs ≤ MAX_INPUTS }
        ensures inputs { result.inputs ≡ inputs }
        ensures values { (r : ℕ) → r < 2 ^ inputs → at result r ≡ bit word r }
        ensures is_table { IsTable result.inputs result.bits }
    {
        Table {
            inputs,
            bits: word & low_rows(inputs),
        }
    }

    /// How many inputs it has.
    pub fn inputs(&self) -> u8
        ensures value { result ≡ self.now.inputs }
        ensures few { result ≤ MAX_INPUTS }
    {
        self.inputs
    }

    /// Its bits, row 0 first from the lowest.
    pub fn bits(&self) -> u64
        ensures value { result ≡ self.now.bits }
        ensures is_table { IsTable self.now.inputs self.now.bits }
    {
        self.bits
    }

    /// The value at a row.
    pub fn at(&self, row: u8) -> bool
        requires { row < 2 ^ self.now.inputs }
        ensures { result ≡ at self.now row }
    {
        self.bits >> row & 1 == 1
    }

    /// The value where the inputs have these bits.
    pub fn look(&self, bits: &[bool]) -> bool
        requires { length bits.now ≡ self.now.inputs }
        ensures { result ≡ look self.now bits.now }
    {
        prove!(bits.len() == self.inputs() as usize);
        self.at(row_of(bits))
    }
}

/// The row of a list of bits.
fn row_of(bits: &[bool]) -> u8
    requires { length bits.now ≤ MAX_INPUTS }
    ensures value { result ≡ row bits.now }
    ensures within { result < 2 ^ length bits.now }
{
    let mut row = 0;
    for (place, bit) in bits.iter().enumerate() {
        if *bit {
            row += 1 << place;
        }
    }
    row
}

/// Whether no bit stands past the last row.
fn fits_rows(inputs: u8, bits: u64) -> bool
    requires { inputs ≤ MAX_INPUTS }
    ensures { IsTrue result ↔ (bits < 2 ^ (2 ^ inputs)) }
{
    let rows = 1u32 << inputs;
    rows == MAX_ROWS || bits >> rows == 0
}
