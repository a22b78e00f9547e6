//! The table of the candidate pairs, gate by gate.
ghost use Rattle.std.specs.Prelude.{◌≡◌, ℕ, ◌+◌, ◌-◌, ◌≤◌, ◌<◌, length, slice_index};
ghost use Rattle.eco_match.specs.Table.{AreRising, table_cost, find_cost};

/// The pairs of all gates. Those of gate g stand together, by rising spares: they are the places from
/// `starts[g + 1]` to `ends[g + 1]` of `spares` and `costs`.
#[derive(Clone, Copy)]
pub struct Table<'a> {
    pub starts: &'a [u64],
    pub ends: &'a [u64],
    pub spares: &'a [u64],
    pub costs: &'a [u64],
}

/// The cost beside a spare among the pairs from `start` to `end`, whose spares rise: by halving.
fn find_halving(spares: &[u64], costs: &[u64], start: usize, end: usize, spare: u64) -> Option<u64>
    requires end { end ≤ length spares.now }
    requires costs { length costs.now ≡ length spares.now }
    requires rising { (i j : ℕ) → start ≤ i → i < j → j < end → slice_index spares.now i < slice_index spares.now j }
    ensures { result ≡ find_cost spares.now costs.now spare start (end - start) }
{
    let mut low = start;
    let mut high = end;
    'halves: while low < high {
        let middle = low + (high - low) / 2;
        if spares[middle] == spare {
            return Some(costs[middle]);
        }
        if spares[middle] < spare {
            low = middle + 1;
        } else {
            high = middle;
        }
    }
    None
}

/// The cost of a gate on a spare, or None where they are no pair.
pub fn pair_of(table: &Table<'_>, gate: usize, spare: u64) -> Option<u64>
    requires starts { length table.now.starts.now ≡ length table.now.ends.now }
    requires gate { gate + 1 < length table.now.ends.now }
    requires row { slice_index table.now.ends.now (gate + 1) ≤ length table.now.spares.now }
    requires costs { length table.now.costs.now ≡ length table.now.spares.now }
    requires rising { AreRising table.now }
    ensures { result ≡ table_cost table.now gate spare }
{
    let start = table.starts[gate + 1] as usize;
    let end = table.ends[gate + 1] as usize;
    find_halving(table.spares, table.costs, start, end, spare)
}
