//! Answers for worked tables, for random tables against a search of all mappings, and for a wide table.
ghost use Rattle.std.specs.Prelude.{◌≡◌, ℕ, ◌+◌, ◌*◌, ◌^◌, ◌≤◌, ◌<◌, length};
ghost use Rattle.eco_bench.specs.Region.{free_words};
ghost use Rattle.eco_match.specs.Rows.{AreRows, ComesNext, rows_cost, need};

use super::*;
use eco_bench::Bench;
use std::process::Abort;
use std::test::Fail;

/// The costs of a gate on five spares; None where they are no pair.
type Row = [Option<u64>; 5];

/// Adds the pairs of one gate.
fn add_row(bench: &mut Bench, rows: &mut Rows, gate: u32, costs: &Row)
    requires rows { AreRows bench.old rows.old }
    requires gate { gate < rows.old.gates }
    requires spares { rows.old.spares ≡ 5 }
    requires filled { rows.old.filled ≤ 5 * gate }
    requires room { 5 * rows.old.gates ≤ rows.old.pairs }
    requires next { ComesNext rows.old.gates (rows_cost bench.old rows.old) gate 0 }
    ensures rows { AreRows bench.new rows.new }
    ensures gates { rows.new.gates ≡ rows.old.gates }
    ensures spares { rows.new.spares ≡ 5 }
    ensures pairs { rows.new.pairs ≡ rows.old.pairs }
    ensures filled { rows.new.filled ≤ 5 * (gate + 1) }
    ensures next { ComesNext rows.new.gates (rows_cost bench.new rows.new) (gate + 1) 0 }
{
    'spares: for spare in 0..5u32 {
        let cost = costs[spare as usize].unwrap_or(1 << 57);
        if cost < 1 << 57 {
            rows.add(bench, gate, spare, cost);
        }
    }
}

/// Rows with the pairs of all gates.
fn rows_of(bench: &mut Bench, costs: &[Row]) -> Rows
    requires gates { length costs.now ≤ 128 }
    requires room { need (length costs.now) 5 (5 * length costs.now) ≤ free_words bench.old }
    ensures rows { AreRows bench.new result }
    ensures gates { result.gates ≡ length costs.now }
{
    let gates = costs.len() as u32;
    let mut rows = Rows::begin(bench, gates, 5, 5 * gates);
    'gates: for gate in 0..gates {
        add_row(bench, &mut rows, gate, &costs[gate as usize]);
    }
    rows
}

/// Whether the rows have exactly the costs of a gate.
fn has_row(bench: &Bench, rows: &Rows, gate: u32, costs: &Row) -> bool
    requires rows { AreRows bench.now rows.now }
    requires gate { gate < rows.now.gates }
{
    for spare in 0..5u32 {
        if rows.pair(bench, gate, spare) != costs[spare as usize] {
            return false;
        }
    }
    true
}

/// Whether the rows have exactly the costs of all gates.
fn has_rows(bench: &Bench, rows: &Rows, costs: &[Row]) -> bool
    requires rows { AreRows bench.now rows.now }
    requires gates { rows.now.gates ≡ length costs.now }
    requires few { length costs.now ≤ 128 }
{
    for gate in 0..costs.len() {
        if !has_row(bench, rows, gate as u32, &costs[gate]) {
            return false;
        }
    }
    true
}

/// What the chosen spares cost, in the table that the rows were made of.
fn cost_of(costs: &[Row], out: &MatchOut) -> Option<u64>
    requires { length costs.now ≤ 128 }
{
    let mut total = 0u64;
    for gate in 0..costs.len() {
        let cost = costs[gate]
            .get(out.spare[gate] as usize)
            .copied()
            .unwrap_or(None)?;
        total = total.saturating_add(cost);
    }
    Some(total)
}

/// The total of a matching, or None where its set of gates is short, with all that the calls answer.
fn matched<R: Abort + AllocGlobal>(rt: &R, costs: &[Row]) -> Result<Option<u64>, Fail>
    requires { length costs.now ≤ 128 }
{
    let gates = costs.len() as u32;
    let mut bench = Bench::new(rt.alloc(), bench_need(gates, 5, 5 * gates))?;
    let rows = rows_of(&mut bench, costs);
    assert!(rt; has_rows(&bench, &rows, costs));
    let room = bench.room();
    let mut out = MatchOut::new();
    let matching = match_least(&mut bench, &rows, &mut out);
    assert!(rt; has_rows(&bench, &rows, costs));
    assert_eq!(rt; bench.room(), room);
    if matching == Matching::Short {
        assert!(rt; check_short(&bench, &rows, &out));
        return Ok(None);
    }
    assert!(rt; check_prices(&bench, &rows, &out));
    assert!(rt; !check_short(&bench, &rows, &MatchOut::new()));
    out.price[0] = -1;
    assert!(rt; costs.is_empty() || !check_prices(&bench, &rows, &out));
    Ok(cost_of(costs, &out))
}

/// The least total of all mappings of the gates from one on, onto spares that aren't taken.
fn least_of_all(costs: &[Row], gate: usize, taken: [bool; 5]) -> Option<u64> {
    if gate >= costs.len() {
        return Some(0);
    }
    let mut least = None;
    'spares: for spare in 0..5usize {
        if taken[spare] {
            continue;
        }
        let Some(cost) = costs[gate][spare] else {
            continue
        };
        let mut more = taken;
        more[spare] = true;
        if let Some(rest) = least_of_all(costs, gate + 1, more) {
            let total = cost.saturating_add(rest);
            least = Some(least.unwrap_or(total).min(total));
        }
    }
    least
}

/// The next number of a sequence that looks random.
fn next(seed: u64) -> u64 {
    seed.wrapping_mul(6364136223846793005)
        .wrapping_add(1442695040888963407)
}

/// A row in which about so many of ten spares are pairs, with costs up to 19.
fn random_row(seed: &mut u64, often: u64) -> Row {
    let mut row = [None; 5];
    for spare in 0..5usize {
        *seed = next(*seed);
        let drawn = *seed >> 33;
        if drawn % 10 < often {
            row[spare] = Some(drawn / 10 % 20);
        }
    }
    row
}

#[test]
fn worked_tables_have_their_least_totals(rt: HostRuntime) -> Result<(), Fail> {
    let far = Some(144115188075855871u64);
    let inverter = [Some(6000), Some(12000), Some(8000), None, None];
    let one = [Some(2000), Some(4000), Some(2000), None, None];
    let nand = [None, Some(5), Some(5), None, None];
    let any = [Some(5), Some(5), Some(5), None, None];
    assert_eq!(rt; matched(&rt, &[])?, Some(0));
    assert_eq!(rt; matched(&rt, &[inverter])?, Some(6000));
    let nearest_first = [
        [Some(1900), Some(4100), Some(2100), None, None],
        [Some(1000), Some(5000), Some(3000), None, None],
    ];
    assert_eq!(rt; matched(&rt, &nearest_first)?, Some(3100));
    assert_eq!(rt; matched(&rt, &[one])?, Some(2000));
    assert_eq!(rt; matched(&rt, &[[None; 5]])?, None);
    assert_eq!(rt; matched(&rt, &[nand, nand, nand])?, None);
    assert_eq!(rt; matched(&rt, &[any, any, any])?, Some(15));
    assert_eq!(rt; matched(&rt, &[any, any, any, any])?, None);
    assert_eq!(rt;
        matched(
            &rt,
            &[
                [far, None, None, None, None],
                [far, Some(1), None, None, None]
            ]
        )?,
        Some(144115188075855872)
    );
    Ok(())
}

#[test]
fn worked_certificates_are_told_from_wrong_ones(rt: HostRuntime) -> Result<(), Fail> {
    let costs = [
        [Some(1900), Some(4100), Some(2100), None, None],
        [Some(1000), Some(5000), Some(3000), None, None],
    ];
    let mut bench = Bench::new(rt.alloc(), bench_need(2, 5, 10))?;
    let rows = rows_of(&mut bench, &costs);
    let mut out = MatchOut::new();
    out.spare[0] = 2;
    out.worth[0] = 2100;
    out.worth[1] = 1200;
    out.price[1] = 200;
    assert!(rt; check_prices(&bench, &rows, &out));
    out.price[1] = 199;
    assert!(rt; !check_prices(&bench, &rows, &out));
    out.worth[1] = 1199;
    assert!(rt;
        !check_prices(&bench, &rows, &out),
        "the first gate would rather have the first spare"
    );
    out.worth[1] = 1200;
    out.price[1] = 200;
    out.worth[0] = 2000;
    out.price[0] = -100;
    assert!(rt; !check_prices(&bench, &rows, &out), "a price below 0");
    out.spare[0] = 0;
    assert!(rt;
        !check_prices(&bench, &rows, &out),
        "one spare for two gates"
    );
    Ok(())
}

#[test]
fn worked_short_sets_are_told_from_wrong_ones(rt: HostRuntime) -> Result<(), Fail> {
    let nand = [None, Some(5), Some(5), None, None];
    let mut bench = Bench::new(rt.alloc(), bench_need(3, 5, 15))?;
    let rows = rows_of(&mut bench, &[nand, nand, nand]);
    let mut out = MatchOut::new();
    out.short[0] = true;
    out.short[1] = true;
    assert!(rt; !check_short(&bench, &rows, &out));
    out.short[2] = true;
    assert!(rt; check_short(&bench, &rows, &out));
    Ok(())
}

#[test]
fn random_tables_agree_with_a_search_of_all_mappings(rt: HostRuntime) -> Result<(), Fail> {
    let mut seed = 7u64;
    let mut short = 0u32;
    for round in 0..600u64 {
        let often = 2 + round % 7;
        let costs = [
            random_row(&mut seed, often),
            random_row(&mut seed, often),
            random_row(&mut seed, often),
            random_row(&mut seed, often),
        ];
        let total = matched(&rt, &costs)?;
        assert_eq!(rt; total, least_of_all(&costs, 0, [false; 5]), "round {round}");
        if total.is_none() {
            short = short.saturating_add(1);
        }
    }
    assert!(rt; short > 100 && short < 500);
    Ok(())
}

/// Adds all pairs of one gate of a wide table.
fn add_wide_row(bench: &mut Bench, rows: &mut Rows, gate: u32, spares: u32)
    requires rows { AreRows bench.old rows.old }
    requires gate { gate < rows.old.gates }
    requires spares { spares ≡ rows.old.spares }
    requires filled { rows.old.filled ≡ gate * spares }
    requires room { (gate + 1) * spares ≤ rows.old.pairs }
    requires next { ComesNext rows.old.gates (rows_cost bench.old rows.old) gate 0 }
    ensures rows { AreRows bench.new rows.new }
    ensures gates { rows.new.gates ≡ rows.old.gates }
    ensures spares { rows.new.spares ≡ rows.old.spares }
    ensures pairs { rows.new.pairs ≡ rows.old.pairs }
    ensures filled { rows.new.filled ≡ (gate + 1) * spares }
    ensures next { ComesNext rows.new.gates (rows_cost bench.new rows.new) (gate + 1) 0 }
{
    'spares: for spare in 0..spares {
        let cost = (37 * u64::from(gate) + 11 * u64::from(spare)) % 1000;
        rows.add(bench, gate, spare, cost);
    }
}

/// Rows with all pairs of 128 gates and 8,192 spares.
fn wide_rows(bench: &mut Bench) -> Rows
    requires { need 128 8192 1048576 ≤ free_words bench.old }
    ensures { AreRows bench.new result }
{
    let mut rows = Rows::begin(bench, 128, 8192, 1048576);
    'gates: for gate in 0..128u32 {
        add_wide_row(bench, &mut rows, gate, 8192);
    }
    rows
}

#[test]
fn a_wide_table_is_matched_at_prices_that_hold(rt: HostRuntime) -> Result<(), Fail> {
    let words = bench_need(128, 8192, 1048576);
    assert_eq!(rt; words, 2163776);
    let mut bench = Bench::new(rt.alloc(), words)?;
    let rows = wide_rows(&mut bench);
    let mut out = MatchOut::new();
    assert_eq!(rt; match_least(&mut bench, &rows, &mut out), Matching::Matched);
    assert!(rt; check_prices(&bench, &rows, &out));
    for gate in 0..128usize {
        let cost = (37 * gate as u64 + 11 * u64::from(out.spare[gate])) % 1000;
        assert_eq!(rt; cost, 0, "gate {gate}");
    }
    assert_eq!(rt; bench.room(), 0);
    Ok(())
}
