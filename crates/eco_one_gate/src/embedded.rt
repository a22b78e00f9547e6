//! The test of a gate's embedding in a spare.

ghost use Rattle.std.specs.Prelude.{◌≡◌, ◌≤◌, ◌-◌, ◌++◌, ◌∷◌, [], ◌↔◌, IsTrue, length, replicate};
ghost use Rattle.eco_embed.specs.declared.feed.Feed.TheVariants.{Zero as Low};
ghost use Rattle.eco_func.specs.declared.output.OutputFn.{OutputFn};
ghost use Rattle.eco_net.specs.Netlist.{Component};
ghost use Rattle.eco_net.specs.declared.kind.Kind.TheVariants.{Gate as OfMaster};
ghost use Rattle.eco_net.specs.Listing.{given_kind};
ghost use Rattle.eco_one_gate.specs.OneGates.{IsEmbedded};

use crate::one_gate::OneGate;
use eco_embed::{Embedding, Feed, fits};
use eco_func::MasterFn;

/// The first output of a master with these feeds of its inputs.
fn embedding_of(feeds: &[Feed]) -> Embedding
    requires { length feeds.now ≤ 6 }
    ensures output { result.output ≡ 0 }
    ensures pins { result.pins ≡ feeds.now ++ replicate (6 - length feeds.now) Low }
{
    let mut pins = [Feed::Zero; 6];
    pins[..feeds.len()].copy_from_slice(feeds);
    Embedding { output: 0, pins }
}

/// Whether a master of one output is the gate with its inputs put on the feeds.
pub(crate) fn is_embedded(master: &MasterFn, one: &OneGate) -> bool
    requires { length one.now.inputs.items ≡ one.now.table.inputs }
    ensures { (x : Component) (o : OutputFn) → x.kind ≡ given_kind (OfMaster master.now) → master.now.outputs ≡ o ∷ [] → IsTrue result ↔ IsEmbedded one.now x o.pin }
{
    let feeds = one.feeds.as_slice();
    if feeds.len() != master.inputs().len() {
        return false;
    }
    fits(&one.table, master, &embedding_of(feeds))
}
