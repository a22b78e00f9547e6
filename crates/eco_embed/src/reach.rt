//! An early end of a search.

ghost use Rattle.std.specs.Prelude.{◌≡◌, ◌<◌, ◌^◌, ◌↔◌, ℕ, IsTrue, length, slice_index};
ghost use Rattle.eco_func.specs.Tables.{at};
ghost use Rattle.eco_func.specs.Tables.{bit};
ghost use Rattle.eco_embed.specs.Words.{Reaches};

use crate::words::chosen;
use eco_func::{Table, low_rows};

/// Whether at each row some word has the wanted value: where none has, no feeds of the pins that are left can give it.
pub fn reaches(want: &Table, words: &[u64]) -> bool
    ensures { IsTrue result ↔ Reaches want.now words.now }
{
    let (mut ones, mut zeros) = (0, 0);
    for word in words {
        ones |= *word;
        zeros |= !*word;
    }
    let rows = low_rows(want.inputs());
    chosen(want.bits(), zeros, ones) & rows == rows
}
