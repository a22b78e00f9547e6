//! Least mappings of gates onto spares, by augmenting paths of least reduced cost with worths and prices
//! (Kuhn 1955, Munkres 1957; Jonker and Volgenant 1987).
#![tactic(auto)]

ghost use Rattle.std.specs.Prelude.{◌≡◌, ℕ, Option, Bool, ℤ};
ghost use Rattle.eco_bench.specs.Region.{Area, IsCarved, IsStanding, words_of};
ghost use Rattle.eco_match.specs.declared.pairs.Rows.{Rows};
ghost use Rattle.eco_match.specs.Least.{IsLeastMatching, HasNone, Certifies, IsShort, AreBelow, AreSameCosts};
ghost use Rattle.eco_match.specs.MatchOut.{IsAnswer, IsExact};
ghost use Rattle.eco_match.specs.declared.answer.MatchOut.{MatchOut};
ghost use Rattle.eco_match.specs.declared.answer.Matching.{Matching};
ghost use Rattle.eco_match.specs.Rows.{AreRows, rows_cost};

mod answer;
mod checks;
mod least;
mod pairs;
mod phase;
mod search;
mod solve;
mod table;
mod work;

pub use answer::{MAX_GATES, MatchOut, Matching};
pub use checks::{check_prices, check_short};
pub use least::match_least;
pub use pairs::{Rows, bench_need};

/// Worths and prices that meet the rules show that a mapping is least.
pub fn prices_imply_least()
    ensures { (gates : ℕ) → (costs : ℕ → ℕ → Option ℕ) → (spare : ℕ → ℕ) → (worth price : ℕ → ℤ) → Certifies gates costs spare worth price → IsLeastMatching gates costs spare }
{}

/// A short set implies that there is no mapping.
pub fn short_implies_none()
    ensures { (gates spares : ℕ) → (costs : ℕ → ℕ → Option ℕ) → (short : ℕ → Bool) → AreBelow gates spares costs → IsShort gates spares costs short → HasNone gates costs }
{}

/// Rows stand, with the same costs, as long as their span stands and holds the same words.
pub fn rows_stand_with_their_words()
    ensures stand { (old new : Area) → (rows : Rows) → AreRows old rows → IsStanding new rows.span → IsCarved new → words_of new rows.span ≡ words_of old rows.span → AreRows new rows }
    ensures costs { (old new : Area) → (rows : Rows) → words_of new rows.span ≡ words_of old rows.span → rows_cost new rows ≡ rows_cost old rows }
{}

/// An answer for some costs is one for all costs that agree with them.
pub fn answers_hold_for_the_same_costs()
    ensures answer { (gates spares : ℕ) → (a b : ℕ → ℕ → Option ℕ) → (out : MatchOut) → (matching : Matching) → AreSameCosts gates a b → IsAnswer gates spares a out matching → IsAnswer gates spares b out matching }
    ensures exact { (gates : ℕ) → (a b : ℕ → ℕ → Option ℕ) → (out : MatchOut) → (matching : Matching) → AreSameCosts gates a b → IsExact gates a out matching → IsExact gates b out matching }
{}

#[cfg(test)]
mod tests;
