//! The candidate pairs of a matching and their costs, in a span of a bench.
ghost use Rattle.std.specs.Prelude.{◌≡◌, ℕ, ◌+◌, ◌*◌, ◌≤◌, ◌<◌, length, slice_index, take, drop, ◌^◌, ◌-◌, ◌∷◌, None};
ghost use Rattle.eco_bench.specs.declared.span.Span.{Span};
ghost use Rattle.eco_bench.specs.Region.{IsStanding, ChangesOnly, free_words, words_of};
ghost use Rattle.eco_match.specs.Rows.{AreParts, AreRows, IsTableOf, starts_of, ends_of, parts_cost, rows_cost, need, work_len, PairWritten, ComesNext, with_pair, wider};
ghost use Rattle.eco_match.specs.Table.{table_cost, find_cost};
ghost use Rattle.eco_match.specs.declared.work.TheConstants.{PLACES};
ghost use Rattle.eco_match.specs.declared.answer.TheConstants.{MAX_GATES};

use crate::table::{Table, pair_of};
use crate::work::PLACE_WORDS;
use eco_bench::{Bench, Span};

/// Where the rows of a matching stand in a bench. The words of the span are: where the row of each
/// gate starts, and where it ends; an owner for each spare; the tree of the search; the spares of all
/// pairs, and their costs.
#[derive(Clone, Copy, Debug)]
pub struct Rows {
    pub span: Span,
    /// How many gates are to be matched, at most 128.
    pub gates: usize,
    /// How many spares there are.
    pub spares: usize,
    /// How many pairs there is room for.
    pub pairs: usize,
    /// How many pairs stand.
    pub filled: usize,
}

/// How many words a matching takes: its rows and all work of the search.
pub fn bench_need(gates: u32, spares: u32, pairs: u32) -> usize
    ensures { result ≡ need gates spares pairs }
{
    8 * (gates as usize + spares as usize) + 2 * pairs as usize + 64
}

impl Rows {
    /// How many words the search works in: an owner for each spare, and five words for each place.
    pub(crate) fn work_words(&self) -> usize
        requires few { (self.now.gates < PLACES) × (self.now.spares < 2 ^ 32) }
        ensures { result ≡ work_len self.now }
    {
        self.spares + PLACE_WORDS * (self.gates + 1)
    }

    /// Carves the words of a problem, with no pair yet.
    pub fn begin(bench: &mut Bench, gates: u32, spares: u32, pairs: u32) -> Rows
        requires room { need gates spares pairs ≤ free_words bench.old }
        requires gates { gates ≤ MAX_GATES }
        ensures sizes { (result.gates ≡ gates) × (result.spares ≡ spares) × (result.pairs ≡ pairs) × (result.filled ≡ 0) }
        ensures rows { AreRows bench.new result }
        ensures empty { (g s : ℕ) → rows_cost bench.new result g s ≡ None }
        ensures span { (result.span.start ≡ bench.old.used) × (result.span.len ≡ need gates spares pairs) }
        ensures standing { bench.new.standing ≡ result.span ∷ bench.old.standing }
        ensures used { bench.new.used ≡ bench.old.used + need gates spares pairs }
        ensures size { length bench.new.words ≡ length bench.old.words }
        ensures kept { (other : Span) → IsStanding bench.old other → words_of bench.new other ≡ words_of bench.old other }
    {
        let span = bench.carve(bench_need(gates, spares, pairs));
        let rows = Rows {
            span,
            gates: gates as usize,
            spares: spares as usize,
            pairs: pairs as usize,
            filled: 0,
        };
        clear(bench.words_mut(span), 2 * (rows.gates + 1));
        rows
    }

    /// Adds a pair after the others: pairs are added by rising gate, and for each gate by rising spare.
    pub fn add(&mut self, bench: &mut Bench, gate: u32, spare: u32, cost: u64)
        requires rows { AreRows bench.old self.old }
        requires gate { gate < self.old.gates }
        requires spare { spare < self.old.spares }
        requires room { self.old.filled < self.old.pairs }
        requires cost { cost < 2 ^ 57 }
        requires next { ComesNext self.old.gates (rows_cost bench.old self.old) gate spare }
        ensures shape { self.new ≡ wider self.old }
        ensures rows { AreRows bench.new self.new }
        ensures added { (g s : ℕ) → g < self.old.gates → rows_cost bench.new self.new g s ≡ with_pair (rows_cost bench.old self.old) gate spare cost g s }
        ensures kept { ChangesOnly bench.old bench.new self.old.span }
    {
        let words = bench.words_mut(self.span);
        let (head, rest) = words.split_at_mut(2 * (self.gates + 1));
        let (_, columns) = rest.split_at_mut(self.work_words());
        write_pair(self, head, columns, gate as usize, spare as u64, cost);
        self.filled += 1;
    }

    /// The cost of a gate on a spare; None exactly where they are no pair.
    pub fn pair(&self, bench: &Bench, gate: u32, spare: u32) -> Option<u64>
        requires rows { AreRows bench.now self.now }
        requires gate { gate < self.now.gates }
        ensures { result ≡ rows_cost bench.now self.now gate spare }
    {
        pair_of(&self.table(bench), gate as usize, spare as u64)
    }

    /// The table of the pairs.
    pub(crate) fn table<'a>(&self, bench: &'a Bench) -> Table<'a>
        requires rows { AreRows bench.now self.now }
        ensures table { IsTableOf self.now result }
        ensures costs { table_cost result ≡ rows_cost bench.now self.now }
    {
        let words = bench.words(self.span);
        let (head, rest) = words.split_at(2 * (self.gates + 1));
        let (_, columns) = rest.split_at(self.work_words());
        table_of(self, head, columns)
    }
}

/// The table of the pairs, out of the parts of the words that hold them.
pub(crate) fn table_of<'a>(rows: &Rows, head: &'a [u64], columns: &'a [u64]) -> Table<'a>
    requires { AreParts rows.now head.now columns.now }
    ensures table { IsTableOf rows.now result }
    ensures costs { table_cost result ≡ parts_cost rows.now head.now columns.now }
{
    let (starts, ends) = head.split_at(rows.gates + 1);
    let (spares, _) = columns.split_at(rows.filled);
    let (_, costs) = columns.split_at(rows.pairs);
    let (costs, _) = costs.split_at(rows.filled);
    Table {
        starts,
        ends,
        spares,
        costs,
    }
}

/// Sets the first words to 0.
fn clear(words: &mut [u64], count: usize)
    requires { count ≤ length words.old }
    ensures { (k : ℕ) → k < count → slice_index words.new k ≡ 0 }
{
    for place in 0..count {
        words[place] = 0;
    }
}

/// Writes a pair after the others, and extends the row of its gate.
fn write_pair(
    rows: &Rows,
    head: &mut [u64],
    columns: &mut [u64],
    gate: usize,
    spare: u64,
    cost: u64,
)
    requires parts { AreParts rows.now head.old columns.old }
    requires gate { gate < rows.now.gates }
    requires room { rows.now.filled < rows.now.pairs }
    ensures { PairWritten rows.now (gate + 1) spare cost head.old columns.old head.new columns.new }
{
    let (starts, ends) = head.split_at_mut(rows.gates + 1);
    let (spares, costs) = columns.split_at_mut(rows.pairs);
    if ends[gate + 1] == 0 {
        starts[gate + 1] = rows.filled as u64;
    }
    ends[gate + 1] = rows.filled as u64 + 1;
    spares[rows.filled] = spare;
    costs[rows.filled] = cost;
}
