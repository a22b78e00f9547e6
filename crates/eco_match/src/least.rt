//! A least mapping, or a short set.
ghost use Rattle.std.specs.Prelude.{◌≡◌, ℕ, ◌+◌, ◌<◌, ◌^◌, length};
ghost use Rattle.eco_bench.specs.Region.{ChangesOnly, free_words};
ghost use Rattle.eco_match.specs.MatchOut.{out_short, IsAnswer, IsExact};
ghost use Rattle.eco_match.specs.Rows.{AreParts, AreRows, work_len, parts_cost, rows_cost};
ghost use Rattle.eco_match.specs.Solve.{short_gate};
ghost use Rattle.eco_match.specs.Work.{HasPlace};
ghost use Rattle.eco_match.specs.declared.work.TheConstants.{PLACES};

use crate::answer::{MatchOut, Matching};
use crate::pairs::{Rows, table_of};
use crate::solve::solve;
use crate::work::rank_of;
use eco_bench::Bench;

/// Finds a mapping of the gates that costs least, with worths and prices that show it, or a short set,
/// exactly where there is no mapping. It works in the words of the rows, and takes no memory.
pub fn match_least(bench: &mut Bench, rows: &Rows, out: &mut MatchOut) -> Matching
    requires rows { AreRows bench.old rows.now }
    ensures answer { IsAnswer rows.now.gates rows.now.spares (rows_cost bench.old rows.now) out.new result }
    ensures exact { IsExact rows.now.gates (rows_cost bench.old rows.now) out.new result }
    ensures room { free_words bench.new ≡ free_words bench.old }
    ensures kept { ChangesOnly bench.old bench.new rows.now.span }
    ensures rows { AreRows bench.new rows.now }
    ensures costs { rows_cost bench.new rows.now ≡ rows_cost bench.old rows.now }
{
    let words = bench.words_mut(rows.span);
    let (head, rest) = words.split_at_mut(2 * (rows.gates + 1));
    let (work, columns) = rest.split_at_mut(rows.work_words());
    match_parts(rows, head, work, columns, out)
}

/// The same, over the parts of the words: where rows start and end, the work, and the pairs.
fn match_parts(
    rows: &Rows,
    head: &[u64],
    work: &mut [u64],
    columns: &[u64],
    out: &mut MatchOut,
) -> Matching
    requires parts { AreParts rows.now head.now columns.now }
    requires work { length work.old ≡ work_len rows.now }
    requires spares { rows.now.spares < 2 ^ 32 }
    ensures answer { IsAnswer rows.now.gates rows.now.spares (parts_cost rows.now head.now columns.now) out.new result }
    ensures exact { IsExact rows.now.gates (parts_cost rows.now head.now columns.now) out.new result }
{
    let table = table_of(rows, head, columns);
    let (owner, tree) = work.split_at_mut(rows.spares);
    if solve(&table, owner, tree, out, rows.gates) {
        return Matching::Matched;
    }
    set_short(tree, rows.gates, out);
    Matching::Short
}

/// Sets the short set: the gates that the tree reached.
fn set_short(tree: &[u64], count: usize, out: &mut MatchOut)
    requires count { count < PLACES }
    requires places { HasPlace tree.now count }
    ensures { (k : ℕ) → k < count → out_short out.new k ≡ short_gate tree.now k }
{
    for gate in 0..count {
        out.short[gate] = rank_of(tree, gate + 1) > 0;
    }
}
