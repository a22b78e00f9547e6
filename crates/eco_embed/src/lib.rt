//! Constant insertion: a gate's function in a master, with the master's inputs tied to 0 or 1 or put on the gate's
//! inputs.
#![tactic(auto)]

ghost use Rattle.eco_embed.specs.Embeddings.{ServesAllBits};

mod embedding;
mod feed;
mod fit;
mod insertion;
mod reach;
mod search;
mod words;

pub use crate::embedding::Embedding;
pub use crate::feed::Feed;
pub use crate::fit::fits;
pub use crate::insertion::embed;

/// A law of embeddings: whatever bits the gate's inputs have, the chosen output with its feeds has the gate's value.
pub fn serves_all_bits()
    ensures { ServesAllBits }
{}
