//! The test of an embedding.

ghost use Rattle.std.specs.Prelude.{◌≡◌, ◌≤◌, ◌^◌, ◌↔◌, true, IsTrue, length};
ghost use Rattle.std.specs.List.{list_all};
ghost use Rattle.eco_embed.specs.Feeds.{is_among, is_zero};
ghost use Rattle.eco_embed.specs.Embeddings.{Embeds, Serves};
ghost use Rattle.eco_embed.specs.Words.{Meets};

use crate::embedding::Embedding;
use crate::feed::Feed;
use crate::words::{agrees, fed, words_of};
use eco_func::{MasterFn, Table};

/// Whether the feeds on the pins of a function give the wanted table.
fn computes(want: &Table, words: &[u64], feeds: &[Feed]) -> bool
    requires rows { want.now.inputs ≤ 6 }
    requires words { length words.now ≡ 2 ^ length feeds.now }
    requires few { length feeds.now ≤ 6 }
    requires among { list_all (is_among 6) feeds.now ≡ true }
    ensures { IsTrue result ↔ Meets want.now words.now feeds.now }
{
    match feeds.split_first() {
        None => agrees(want, words[0]),
        Some((first, rest)) => computes(want, &fed(words, *first)[..words.len() / 2], rest),
    }
}

/// Whether each feed is a constant or one of so many inputs.
fn are_among(inputs: u8, feeds: &[Feed]) -> bool
    ensures { result ≡ list_all (is_among inputs) feeds.now }
{
    feeds.iter().all(|feed| feed.is_among(inputs))
}

/// Whether each feed is the constant 0.
fn are_zero(feeds: &[Feed]) -> bool
    ensures { result ≡ list_all is_zero feeds.now }
{
    feeds.iter().all(|feed| feed.is_zero())
}

/// Whether the feeds make the wanted table of a table.
fn serve(want: &Table, table: &Table, feeds: &[Feed]) -> bool
    requires { length feeds.now ≡ table.now.inputs }
    ensures { IsTrue result ↔ Serves want.now table.now feeds.now }
{
    if are_among(want.inputs(), feeds) {
        computes(want, &words_of(table)[..1 << table.inputs()], feeds)
    } else {
        false
    }
}

/// Whether it is an embedding of the wanted table in the master.
pub fn fits(want: &Table, master: &MasterFn, e: &Embedding) -> bool
    ensures { IsTrue result ↔ Embeds want.now master.now e.now }
{
    let inputs = master.inputs().len();
    match master.outputs().get(e.output as usize) {
        Some(output) => {
            serve(want, &output.table, &e.pins[..inputs]) && are_zero(&e.pins[inputs..])
        }
        None => false,
    }
}
