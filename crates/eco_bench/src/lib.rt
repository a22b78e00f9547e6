//! A region of words that planning carves into spans. Spans that stand never overlap.
#![tactic(auto)]

ghost use Rattle.std.specs.Prelude.{◌≡◌, ℕ, List, length};
ghost use Rattle.eco_bench.specs.declared.span.Span.{Span};
ghost use Rattle.eco_bench.specs.Region.{Area, IsCarved, StandApart, IsStanding, SetsWords, with_words};

mod bench;
mod span;
mod standing;
#[cfg(test)]
mod tests;

pub use bench::Bench;
pub use eco_common::Memory;
pub use span::{Mark, Span};

/// Two different spans of a bench that stand share no word.
pub fn standing_spans_are_apart()
    ensures { (area : Area) → IsCarved area → StandApart area }
{}

/// Words that are written over a standing span change that span, and none that shares no word with it.
pub fn writing_changes_one_span()
    ensures { (old : Area) → (span : Span) → (part : List ℕ) → IsCarved old → IsStanding old span → length part ≡ span.len → SetsWords old (with_words old span.start part) span part }
{}
