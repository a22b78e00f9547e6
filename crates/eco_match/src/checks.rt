//! Tests of an answer against the rows.
ghost use Rattle.std.specs.Prelude.{◌≡◌, ℕ, ◌+◌, ◌*◌, ◌≤◌, ◌<◌, ◌^◌, ◌-◌, ◌↔◌, IsTrue, ◌&&◌, is_some, pos, ◌≤ℤ◌, length, slice_index, take, drop};
ghost use Rattle.eco_match.specs.Checks.{chosen_at, KeepsRule, NoneNegative, AreChosen, DiffersFromEarlier, AllDiffer, AllKeep};
ghost use Rattle.eco_match.specs.Least.{sum_below, one_if, is_wanted, IsShort, signed_price_of, Certifies};
ghost use Rattle.eco_match.specs.MatchOut.{out_short, out_spare, out_price, out_worth};
ghost use Rattle.eco_match.specs.Rows.{AreRows, IsTableOf, rows_cost};
ghost use Rattle.eco_match.specs.Table.{table_cost, InRow};
ghost use Rattle.eco_match.specs.declared.work.TheConstants.{PLACES};
ghost use Rattle.eco_match.specs.declared.answer.TheConstants.{MAX_GATES};

use crate::answer::MatchOut;
use crate::pairs::Rows;
use crate::table::{Table, pair_of};
use eco_bench::Bench;

/// Whether a gate is in the set and has the spare as a candidate.
fn gate_wants(rows: &Rows, table: &Table<'_>, out: &MatchOut, gate: usize, spare: u64) -> bool
    requires table { IsTableOf rows.now table.now }
    requires gate { gate < rows.now.gates }
    ensures { result ≡ (out_short out.now gate && is_some (table_cost table.now gate spare)) }
{
    let cost = pair_of(table, gate, spare);
    out.short[gate] && cost.is_some()
}

/// Whether some gate of the set has the spare as a candidate.
fn wants(rows: &Rows, table: &Table<'_>, out: &MatchOut, spare: u64) -> bool
    requires { IsTableOf rows.now table.now }
    ensures { result ≡ is_wanted (table_cost table.now) (out_short out.now) rows.now.gates spare }
{
    let mut left = rows.gates;
    'gates: while left > 0 {
        left -= 1;
        if gate_wants(rows, table, out, left, spare) {
            return true;
        }
    }
    false
}

/// How many spares are candidates of the set.
fn wanted(rows: &Rows, table: &Table<'_>, out: &MatchOut) -> usize
    requires { IsTableOf rows.now table.now }
    ensures { result ≡ sum_below (λ s. one_if (is_wanted (table_cost table.now) (out_short out.now) rows.now.gates s)) rows.now.spares }
{
    let mut count = 0;
    for spare in 0..rows.spares {
        if wants(rows, table, out, spare as u64) {
            count += 1;
        }
    }
    count
}

/// How many gates the set has.
fn members(rows: &Rows, out: &MatchOut) -> usize
    requires { rows.now.gates < PLACES }
    ensures { result ≡ sum_below (λ g. one_if (out_short out.now g)) rows.now.gates }
{
    let mut count = 0;
    for gate in 0..rows.gates {
        if out.short[gate] {
            count += 1;
        }
    }
    count
}

/// Whether the answer's set of gates has fewer candidates than members, which shows that there is no
/// mapping.
pub fn check_short(bench: &Bench, rows: &Rows, out: &MatchOut) -> bool
    requires { AreRows bench.now rows.now }
    ensures { IsTrue result ↔ IsShort rows.now.gates rows.now.spares (rows_cost bench.now rows.now) (out_short out.now) }
{
    is_short(rows, &rows.table(bench), out)
}

/// Whether the set has fewer candidates than members.
fn is_short(rows: &Rows, table: &Table<'_>, out: &MatchOut) -> bool
    requires { IsTableOf rows.now table.now }
    ensures { IsTrue result ↔ IsShort rows.now.gates rows.now.spares (table_cost table.now) (out_short out.now) }
{
    wanted(rows, table, out) < members(rows, out)
}

/// Whether the worth of a gate less its price, which isn't below 0, is the cost of its spare.
fn is_chosen(rows: &Rows, table: &Table<'_>, out: &MatchOut, gate: usize) -> bool
    requires table { IsTableOf rows.now table.now }
    requires gate { gate < rows.now.gates }
    ensures { IsTrue result ↔ chosen_at (table_cost table.now) out.now gate }
{
    let worth = out.worth[gate];
    let price = out.price[gate];
    match pair_of(table, gate, u64::from(out.spare[gate])) {
        None => false,
        Some(cost) => price >= 0 && worth.checked_sub(price) == Some(i128::from(cost)),
    }
}

/// The price of a spare: that of the gate that has it, or 0.
fn price_of(out: &MatchOut, count: usize, spare: u64) -> i128
    requires count { count < PLACES }
    requires prices { NoneNegative out.now count }
    ensures price { result ≡ signed_price_of (out_spare out.now) (out_price out.now) count spare }
    ensures low { pos 0 ≤ℤ result }
{
    let mut left = count;
    'gates: while left > 0 {
        left -= 1;
        if u64::from(out.spare[left]) == spare {
            return out.price[left];
        }
    }
    0
}

/// Whether a gate's worth less the price of a pair's spare is at most the pair's cost.
fn keeps_rule(table: &Table<'_>, out: &MatchOut, count: usize, gate: usize, pair: usize) -> bool
    requires count { (count < PLACES) × (gate < count) }
    requires prices { NoneNegative out.now count }
    requires pair { pair < length table.now.spares.now }
    requires costs { length table.now.costs.now ≡ length table.now.spares.now }
    ensures { IsTrue result ↔ KeepsRule table.now out.now count gate pair }
{
    let worth = out.worth[gate];
    let price = price_of(out, count, table.spares[pair]);
    worth <= price || worth - price <= i128::from(table.costs[pair])
}

/// Whether all pairs of a gate keep the rule.
fn row_keeps(table: &Table<'_>, out: &MatchOut, count: usize, gate: usize) -> bool
    requires count { (count < PLACES) × (gate < count) }
    requires prices { NoneNegative out.now count }
    requires ends { length table.now.ends.now ≡ length table.now.starts.now }
    requires inside { gate + 1 < length table.now.ends.now }
    requires row { slice_index table.now.ends.now (gate + 1) ≤ length table.now.spares.now }
    requires costs { length table.now.costs.now ≡ length table.now.spares.now }
    ensures { IsTrue result ↔ ((j : ℕ) → InRow table.now (gate + 1) j → KeepsRule table.now out.now count gate j) }
{
    let start = table.starts[gate + 1] as usize;
    let end = table.ends[gate + 1] as usize;
    for pair in start..end {
        if !keeps_rule(table, out, count, gate, pair) {
            return false;
        }
    }
    true
}

/// Whether each gate has a candidate, at its cost and no price below 0.
fn all_chosen(rows: &Rows, table: &Table<'_>, out: &MatchOut) -> bool
    requires table { IsTableOf rows.now table.now }
    ensures { IsTrue result ↔ AreChosen rows.now.gates (table_cost table.now) out.now }
{
    for gate in 0..rows.gates {
        if !is_chosen(rows, table, out, gate) {
            return false;
        }
    }
    true
}

/// Whether no gate before this one has its spare.
fn differs(out: &MatchOut, gate: usize) -> bool
    requires { gate < MAX_GATES }
    ensures { IsTrue result ↔ DiffersFromEarlier out.now gate }
{
    for earlier in 0..gate {
        if out.spare[earlier] == out.spare[gate] {
            return false;
        }
    }
    true
}

/// Whether no two gates have one spare.
fn all_differ(out: &MatchOut, count: usize) -> bool
    requires { count < PLACES }
    ensures { IsTrue result ↔ AllDiffer out.now count }
{
    for gate in 0..count {
        if !differs(out, gate) {
            return false;
        }
    }
    true
}

/// Whether all pairs of all gates keep the rule.
fn all_keep(table: &Table<'_>, out: &MatchOut, count: usize) -> bool
    requires count { count < PLACES }
    requires prices { NoneNegative out.now count }
    requires ends { length table.now.ends.now ≡ length table.now.starts.now }
    requires inside { count < length table.now.ends.now }
    requires rows { (g : ℕ) → g < length table.now.ends.now → slice_index table.now.ends.now g ≤ length table.now.spares.now }
    requires costs { length table.now.costs.now ≡ length table.now.spares.now }
    ensures { IsTrue result ↔ AllKeep table.now out.now count }
{
    for gate in 0..count {
        if !row_keeps(table, out, count, gate) {
            return false;
        }
    }
    true
}

/// Whether the answer is a mapping, with worths and prices that meet the rules.
fn is_certificate(rows: &Rows, table: &Table<'_>, out: &MatchOut) -> bool
    requires table { IsTableOf rows.now table.now }
    ensures { IsTrue result ↔ Certifies rows.now.gates (table_cost table.now) (out_spare out.now) (out_worth out.now) (out_price out.now) }
{
    if !all_chosen(rows, table, out) {
        return false;
    }
    if !all_differ(out, rows.gates) {
        return false;
    }
    all_keep(table, out, rows.gates)
}

/// Whether the answer is a mapping with worths and prices that show it least.
pub fn check_prices(bench: &Bench, rows: &Rows, out: &MatchOut) -> bool
    requires { AreRows bench.now rows.now }
    ensures { IsTrue result ↔ Certifies rows.now.gates (rows_cost bench.now rows.now) (out_spare out.now) (out_worth out.now) (out_price out.now) }
{
    is_certificate(rows, &rows.table(bench), out)
}
