//! Functions of several pins, 64 rows of a gate at a time.

ghost use Rattle.std.specs.Prelude.{◌≡◌, ◌<◌, ◌≤◌, ◌+◌, ◌-◌, ◌*◌, ◌^◌, ◌↔◌, ℕ, IsTrue, length, slice_index, if◌then◌else◌};
ghost use Rattle.eco_embed.specs.Feeds.{feed_bit, is_among};
ghost use Rattle.eco_func.specs.Tables.{at, bit};
ghost use Rattle.eco_embed.specs.Words.{IsFed};

use crate::feed::Feed;
use eco_func::{Table, input_column, low_rows};

/// The values of a feed at 64 rows: bit `r` is its value at row `r`.
fn column(feed: Feed) -> u64
    requires { IsTrue (is_among 6 feed) }
    ensures { (r : ℕ) → r < 64 → bit result r ≡ feed_bit r feed }
{
    match feed {
        Feed::Zero => 0,
        Feed::One => u64::MAX,
        Feed::Input(input) => input_column(input),
    }
}

/// At each row the bit of `one` where `column` has 1, and else that of `zero`.
pub fn chosen(column: u64, zero: u64, one: u64) -> u64
    ensures { (r : ℕ) → bit result r ≡ (if bit column r then bit one r else bit zero r) }
{
    zero ^ (column & (zero ^ one))
}

/// The words of what is left where the first pin has this feed.
pub fn fed(words: &[u64], feed: Feed) -> [u64; 32]
    requires few { length words.now ≤ 64 }
    requires among { IsTrue (is_among 6 feed) }
    ensures words { IsFed words.now result feed }
    ensures places { length result ≡ 32 }
{
    halved(words, column(feed))
}

/// The words of what is left where the first pin has this column.
fn halved(words: &[u64], column: u64) -> [u64; 32]
    requires { length words.now ≤ 64 }
    ensures places { length result ≡ 32 }
    ensures words { (s r : ℕ) → 2 * s + 1 < length words.now → bit (slice_index result s) r ≡ (if bit column r then bit (slice_index words.now (2 * s + 1)) r else bit (slice_index words.now (2 * s)) r) }
{
    let mut left = [0; 32];
    for place in 0..words.len() / 2 {
        left[place] = chosen(column, words[2 * place], words[2 * place + 1]);
    }
    left
}

/// Whether a word has the wanted value at each row.
pub fn agrees(want: &Table, word: u64) -> bool
    ensures { IsTrue result ↔ ((r : ℕ) → r < 2 ^ want.now.inputs → bit word r ≡ at want.now r) }
{
    word & low_rows(want.inputs()) == want.bits()
}

/// The word with one value at all rows.
fn all_rows(value: bool) -> u64
    ensures { (r : ℕ) → r < 64 → bit result r ≡ value }
{
    if value { u64::MAX } else { 0 }
}

/// The words of a table: all rows of a word have the table's bit.
pub fn words_of(table: &Table) -> [u64; 64]
    ensures places { length result ≡ 64 }
    ensures words { (s r : ℕ) → s < 2 ^ table.now.inputs → r < 64 → bit (slice_index result s) r ≡ at table.now s }
{
    let mut words = [0; 64];
    for row in 0..1u8 << table.inputs() {
        words[row as usize] = all_rows(table.at(row));
    }
    words
}
