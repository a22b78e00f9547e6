//! The bench: words that are carved into spans, from the first word on.
use crate::span::{Mark, Span};
use crate::standing::Standing;
use eco_common::Memory;
use std::alloc::Global;
use std::marker::Model;

/// A region of 64-bit words. A span stands from its `carve` until the bench goes back to a mark that
/// was set before. No call but `new` takes memory.
#[derive(Drop)]
pub struct Bench {
    words: Vec<u64>,
    used: usize,
    standing: Standing,
}

impl Model for Bench {
    ghost use Rattle.eco_bench.specs.Region.{Area, IsCarved};

    ghost Value = { Area };

    ghost view = { λ b. record { words = b.words.items; used = b.used; standing = b.standing.spans } };

    ghost invariant = { λ b. IsCarved (record { words = b.words.items; used = b.used; standing = b.standing.spans }) };
}

impl Bench {
    ghost use Rattle.std.specs.Prelude.{◌≡◌, ℕ, ◌+◌, ◌-◌, ◌≤◌, ◌<◌, ◌↔◌, [], ◌∷◌, length, slice_index, slice_set, IfOk};
    ghost use Rattle.std.specs.Borrow.{sem};
    ghost use Rattle.eco_bench.specs.Lending.{LendsWords};
    ghost use Rattle.eco_bench.specs.Spans.{ShareNoWord, EndsBefore, before};
    ghost use Rattle.eco_bench.specs.Region.{IsStanding, IsCarved, IsMarkOf, SetsWord, free_words, words_of};
    ghost use Rattle.eco_bench.specs.declared.span.Span.{Span};

    /// A bench of so many words, of which none is carved. Its only error is that memory ran out.
    pub fn new(alloc: Global, words: usize) -> Result<Bench, Memory>
        ensures size { IfOk result (λ b. length b.words ≡ words) }
        ensures used { IfOk result (λ b. b.used ≡ 0) }
        ensures standing { IfOk result (λ b. b.standing ≡ []) }
    {
        let words = vec![in alloc; 0u64; words]?;
        Ok(Bench {
            words,
            used: 0,
            standing: Standing::new(),
        })
    }

    /// How many words are left to carve.
    pub fn room(&self) -> usize
        ensures room { result ≡ free_words self.now }
        ensures carved { IsCarved self.now }
    {
        self.words.len() - self.used
    }

    /// Carves the next `n` words. They hold any numbers until they are set.
    pub fn carve(&mut self, n: usize) -> Span
        requires { n ≤ free_words self.old }
        ensures span { (result.start ≡ self.old.used) × (result.len ≡ n) }
        ensures standing { self.new.standing ≡ result ∷ self.old.standing }
        ensures apart { (other : Span) → IsStanding self.old other → ShareNoWord other result }
        ensures used { self.new.used ≡ self.old.used + n }
        ensures words { self.new.words ≡ self.old.words }
        ensures carved { IsCarved self.new }
    {
        let span = Span {
            start: self.used,
            len: n,
        };
        self.standing = Standing::with(&self.standing, &span);
        self.used += n;
        span
    }

    /// Word `k` of a span.
    pub fn get(&self, span: Span, k: usize) -> u64
        requires stands { IsStanding self.now span }
        requires within { k < span.len }
        ensures value { result ≡ slice_index self.now.words (span.start + k) }
        ensures word { result ≡ slice_index (words_of self.now span) k }
    {
        self.words(span)[k]
    }

    /// Changes word `k` of a span, and no other word.
    pub fn set(&mut self, span: Span, k: usize, value: u64)
        requires stands { IsStanding self.old span }
        requires within { k < span.len }
        ensures words { self.new.words ≡ slice_set self.old.words (span.start + k) value }
        ensures spans { SetsWord self.old self.new span k value }
        ensures used { self.new.used ≡ self.old.used }
        ensures standing { self.new.standing ≡ self.old.standing }
    {
        self.words[span.start + k] = value;
    }

    /// How many words are carved now.
    pub fn mark(&self) -> Mark
        ensures { result.used ≡ self.now.used }
    {
        Mark { used: self.used }
    }

    /// Ends the spans that were carved after a mark. All words stay as they are.
    pub fn back(&mut self, mark: Mark)
        requires { IsMarkOf self.old mark }
        ensures used { self.new.used ≡ mark.used }
        ensures standing { self.new.standing ≡ before mark self.old.standing }
        ensures stays { (span : Span) → IsStanding self.new span ↔ (IsStanding self.old span × EndsBefore mark span) }
        ensures words { self.new.words ≡ self.old.words }
        ensures carved { IsCarved self.new }
    {
        self.standing = Standing::until(&self.standing, &mark);
        self.used = mark.used;
    }

    /// The words of a span.
    pub fn words(&self, span: Span) -> &[u64]
        requires { IsStanding self.now span }
        ensures value { result.now ≡ words_of self.now span }
        ensures len { length result.now ≡ span.len }
    {
        &self.words[span.start..span.start + span.len]
    }

    /// The words of a span, to be changed; all other words stay.
    pub fn words_mut(&mut self, span: Span) -> &mut [u64]
        requires stands { IsStanding self.old span }
        ensures* writes_back { sem 𝓛 (LendsWords self.entry span.start result) }
        ensures value { result.now ≡ words_of self.old span }
        ensures len { length result.now ≡ span.len }
    {
        self.words.slice_mut(span.start..span.start + span.len)
    }
}
