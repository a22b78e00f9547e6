//! Times a least matching of gates onto spares, where each gate may have each spare:
//! match_bench GATES SPARES remainders|products [times]
#![tactic(auto)]

ghost use Rattle.std.specs.Prelude.{◌≡◌, ℕ, ◌+◌, ◌*◌, ◌^◌, ◌≤◌, ◌<◌};
ghost use Rattle.eco_bench.specs.Region.{free_words};
ghost use Rattle.eco_match.specs.Rows.{AreRows, ComesNext, rows_cost, need};

use anyhow::{Context, Result, bail, ensure};
use eco_bench::Bench;
use eco_match::{MatchOut, Matching, Rows, bench_need, check_prices, match_least};
use std::env;
use std::rt::{Clock, Env};
use std::time::Instant;

/// How the cost of a gate on a spare is made.
#[derive(Clone, Copy)]
enum Costs {
    /// `(37 * gate + 11 * spare) mod 1000`: many pairs cost the same.
    Remainders,
    /// `(gate + 1) * (spare + 1)`: each phase reaches all gates that are matched.
    Products,
}

/// What is to be matched.
#[derive(Drop)]
struct Task {
    gates: u32,
    spares: u32,
    costs: Costs,
    times: bool,
    ghost few_gates: { gates ≤ 128 },
    ghost few_spares: { spares ≤ 32768 },
}

fn cost_of(costs: Costs, gate: u32, spare: u32) -> u64
    ensures { result < 2 ^ 57 }
{
    match costs {
        Costs::Remainders => (37 * u64::from(gate) + 11 * u64::from(spare)) % 1000,
        Costs::Products => {
            let product = (u64::from(gate) + 1).saturating_mul(u64::from(spare) + 1);
            product.min((1 << 57) - 1)
        }
    }
}

/// Adds all pairs of one gate.
fn fill_row(bench: &mut Bench, rows: &mut Rows, gate: u32, spares: u32, costs: Costs)
    requires rows { AreRows bench.old rows.old }
    requires gate { gate < rows.old.gates }
    requires spares { spares ≡ rows.old.spares }
    requires filled { rows.old.filled ≡ gate * spares }
    requires room { (gate + 1) * spares ≤ rows.old.pairs }
    requires next { ComesNext rows.old.gates (rows_cost bench.old rows.old) gate 0 }
    ensures rows { AreRows bench.new rows.new }
    ensures gates { rows.new.gates ≡ rows.old.gates }
    ensures spares { rows.new.spares ≡ rows.old.spares }
    ensures pairs { rows.new.pairs ≡ rows.old.pairs }
    ensures filled { rows.new.filled ≡ (gate + 1) * spares }
    ensures next { ComesNext rows.new.gates (rows_cost bench.new rows.new) (gate + 1) 0 }
{
    'spares: for spare in 0..spares {
        let cost = cost_of(costs, gate, spare);
        rows.add(bench, gate, spare, cost);
    }
}

/// Adds all pairs of all gates.
fn fill(bench: &mut Bench, gates: u32, spares: u32, costs: Costs) -> Rows
    requires gates { gates ≤ 128 }
    requires spares { spares ≤ 32768 }
    requires room { need gates spares (gates * spares) ≤ free_words bench.old }
    ensures rows { AreRows bench.new result }
{
    let mut rows = Rows::begin(bench, gates, spares, gates * spares);
    'gates: for gate in 0..gates {
        fill_row(bench, &mut rows, gate, spares, costs);
    }
    rows
}

/// Reads the command line's words after the program's name.
fn read_task<R: Env + AllocGlobal>(rt: &R) -> Result<Task> {
    let mut words = env::args(rt)?.skip(1);
    let gates = words
        .next()
        .context("no number of gates")?
        .parse::<u32>()
        .context("gates")?;
    let spares = words
        .next()
        .context("no number of spares")?
        .parse::<u32>()
        .context("spares")?;
    let costs = match words.next().context("no kind of costs")?.as_str() {
        "remainders" => Costs::Remainders,
        "products" => Costs::Products,
        _ => bail!("the costs are remainders or products"),
    };
    ensure!(gates <= 128, "at most 128 gates");
    ensure!(spares <= 32768, "at most 32768 spares");
    let times = words.next().is_some();
    Ok(Task {
        gates,
        spares,
        costs,
        times,
    })
}

fn run<R: Env + Clock + Print + AllocGlobal>(rt: &R) -> Result<()> {
    let Task {
        gates,
        spares,
        costs,
        times,
    } = read_task(rt)?;
    let mut bench = Bench::new(rt.alloc(), bench_need(gates, spares, gates * spares))?;
    let begun = Instant::now(rt)?;
    let rows = fill(&mut bench, gates, spares, costs);
    let filled = Instant::now(rt)?;
    let mut out = MatchOut::new();
    let matching = match_least(&mut bench, &rows, &mut out);
    let matched = Instant::now(rt)?;
    let shown = matching == Matching::Matched && check_prices(&bench, &rows, &out);
    let checked = Instant::now(rt)?;
    println!(rt; "{matching:?}, prices hold: {shown}")?;
    if times {
        let fill = filled.duration_since(begun).as_micros();
        let find = matched.duration_since(filled).as_micros();
        let check = checked.duration_since(matched).as_micros();
        println!(rt; "filled in {fill} us, matched in {find} us, checked in {check} us")?;
    }
    Ok(())
}

fn main(rt: HostRuntime) -> Result<()> {
    run(&rt)
}
