//! Constant insertion.

ghost use Rattle.std.specs.Prelude.{MatchOption};
ghost use Rattle.eco_embed.specs.Embeddings.{Embeds, IsFirst, ServesNone, FirstServing};
ghost use Rattle.eco_embed.specs.declared.embedding.Embedding.{Embedding as AnEmbedding};

use crate::embedding::Embedding;
use crate::feed::Feed;
use crate::search::first_feeds;
use crate::words::words_of;
use eco_func::{MasterFn, Table};

/// The first feeds that make the wanted table of a table, and Zero after them.
fn first_serving(want: &Table, table: &Table) -> Option<[Feed; 6]>
    ensures { MatchOption result (ServesNone want.now table.now) (FirstServing want.now table.now) }
{
    let pins = table.inputs();
    first_feeds(
        want,
        want.inputs() + 2,
        &words_of(table)[..1 << pins],
        pins as usize,
    )
}

/// The first embedding of the wanted table in the master, by output and then by pins from the first.
pub fn embed(want: &Table, master: &MasterFn) -> Option<Embedding>
    ensures { MatchOption result ((e : AnEmbedding) → ¬ Embeds want.now master.now e) (IsFirst want.now master.now) }
{
    for (output, function) in master.outputs().iter().enumerate() {
        if let Some(pins) = first_serving(want, &function.table) {
            return Some(Embedding {
                output: output as u8,
                pins,
            });
        }
    }
    None
}
