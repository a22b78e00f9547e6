//! Values that have a form of their own: lists with commas, and truth tables.

ghost use Rattle.std.specs.Prelude.{◌≡◌, ℕ, ◌==◌, ◌||◌, ◌≤◌, ◌^◌, true, not, nat_le, length, map, [], Some, IfOk};
ghost use Rattle.std.specs.List.{list_all, list_any};
ghost use Rattle.std.specs.Str.{bytes_eq};
ghost use Rattle.eco_func.specs.FunctionsFile.{table_of};
ghost use Rattle.eco_cli.specs.ApplyCommand.{feed_word};
ghost use Rattle.eco_cli.specs.ValueForms.{items_of, is_name_list, is_feed, feed_of, is_feed_list, is_table, row_counts};

use eco_embed::Feed;
use eco_func::{Table, read_table};
use std::alloc::{AllocError, Global};

/// Whether a value is a list of names.
pub fn is_name_list(word: &str) -> bool
    ensures { result ≡ is_name_list word.now }
{
    word.split(',').all(|item| item != "")
}

fn is_feed(item: &str) -> bool
    ensures { result ≡ is_feed item.now }
{
    matches!(
        item.as_bytes(),
        b"0" | b"1" | b"i0" | b"i1" | b"i2" | b"i3" | b"i4" | b"i5"
    )
}

fn has_few_items(word: &str) -> bool
    ensures { result ≡ nat_le (length (items_of word.now)) 6 }
{
    word.split(',').count() <= 6
}

fn has_feeds(word: &str) -> bool
    ensures { result ≡ list_all is_feed (items_of word.now) }
{
    word.split(',').all(|item| is_feed(item))
}

/// Whether a value is a list of at most six feeds.
pub fn is_feed_list(word: &str) -> bool
    ensures { result ≡ is_feed_list word.now }
{
    has_feeds(word) && has_few_items(word)
}

fn is_row_count(rows: usize) -> bool
    ensures { result ≡ list_any (λ n. n == rows) row_counts }
{
    matches!(rows, 1 | 2 | 4 | 8 | 16 | 32 | 64)
}

fn has_bits(word: &[u8]) -> bool
    ensures { result ≡ list_all (λ b. b == 48 || b == 49) word.now }
{
    word.iter().all(|byte| *byte == b'0' || *byte == b'1')
}

/// Whether a value is a truth table of at most six inputs.
pub fn is_table(word: &str) -> bool
    ensures { result ≡ is_table word.now }
{
    is_row_count(word.len()) && has_bits(word.as_bytes())
}

/// The items of a list with commas.
pub fn items<'a>(alloc: Global, word: &'a str) -> Result<Vec<&'a str>, AllocError>
    ensures { IfOk result (λ v. map (λ item. item.now) v.items ≡ items_of word.now) }
{
    word.split(',').collect(alloc)
}

/// The feed that an item of a list of feeds writes.
fn feed(item: &str) -> Feed
    ensures { result ≡ feed_of item.now }
{
    match item.as_bytes() {
        b"0" => Feed::Zero,
        b"1" => Feed::One,
        b"i0" => Feed::Input(0),
        b"i1" => Feed::Input(1),
        b"i2" => Feed::Input(2),
        b"i3" => Feed::Input(3),
        b"i4" => Feed::Input(4),
        _ => Feed::Input(5),
    }
}

fn all_feeds(alloc: Global, word: &str) -> Result<Vec<Feed>, AllocError>
    ensures { IfOk result (λ v. v.items ≡ map feed_of (items_of word.now)) }
{
    word.split(',').map(|item| feed(item)).collect(alloc)
}

/// The feeds of a list of feeds.
pub fn feeds(alloc: Global, word: &str) -> Result<Vec<Feed>, AllocError>
    requires { is_feed_list word.now ≡ true }
    ensures { IfOk result (λ v. map feed_word v.items ≡ items_of word.now) }
{
    all_feeds(alloc, word)
}

/// How many inputs a table with so many rows has.
fn input_count(rows: usize) -> u8
    ensures few { result ≤ 6 }
    ensures value { list_any (λ n. n == rows) row_counts ≡ true → rows ≡ 2 ^ result }
{
    match rows {
        1 => 0,
        2 => 1,
        4 => 2,
        8 => 3,
        16 => 4,
        32 => 5,
        _ => 6,
    }
}

/// The table that a value writes.
pub fn table(word: &str) -> Table
    requires { is_table word.now ≡ true }
    ensures { (m : ℕ) × (table_of m word.now ≡ Some result) }
{
    read_table(input_count(word.len()), word.as_bytes()).unwrap()
}
