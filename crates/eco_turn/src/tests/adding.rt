//! Adding numbers under a turn.
ghost use Rattle.std.specs.Prelude.{◌≡◌, ◌<◌, [], ◌∷◌, ◌++◌, All, ℕ, MatchBool, length, slice_index_or, vec_len};
ghost use Rattle.eco_turn.specs.Pass.{HasLeft, pass_number, pass_own};
ghost use Rattle.eco_turn.specs.Turn.{IsPassOf};

use super::numbers::Numbers;
use crate::{Pass, Turn};
use std::sync::Wait;
use std::thread;
use std::thread::Threads;

/// Adds a number, where there is memory for it.
fn add<W: Wait>(rt: &W, turn: &Turn<Numbers>, pass: &mut Pass<u64, u64>, number: u64) -> bool
    requires { IsPassOf (λ n. n.label) turn.now pass.old × HasLeft pass.old }
    ensures pass { IsPassOf (λ n. n.label) turn.now pass.new × HasLeft pass.new }
    ensures number { pass_number pass.new ≡ pass_number pass.old }
    ensures own { MatchBool
        result
        (pass_own pass.new ≡ pass_own pass.old ++ (pass_number pass.old, number) ∷ [])
        (pass_own pass.new ≡ pass_own pass.old) }
{
    let mut held = turn.enter(rt, pass);
    let by = pass.number();
    let added = held.get().add(by, number);
    Turn::leave(held, pass);
    added
}

/// Adds the numbers below `end` in their order, up to the first for which there is no memory.
fn add_below<W: Wait>(rt: &W, turn: &Turn<Numbers>, pass: &mut Pass<u64, u64>, end: u64)
    requires { IsPassOf (λ n. n.label) turn.now pass.old × HasLeft pass.old }
    ensures pass { IsPassOf (λ n. n.label) turn.now pass.new × HasLeft pass.new }
    ensures number { pass_number pass.new ≡ pass_number pass.old }
{
    for number in 0..end {
        if !add(rt, turn, pass, number) {
            return;
        }
    }
}

/// Whether the numbers that the pass finds are these.
fn finds<W: Wait>(
    rt: &W,
    turn: &Turn<Numbers>,
    pass: &mut Pass<u64, u64>,
    want: &[(u32, u64)],
) -> bool
    requires { IsPassOf (λ n. n.label) turn.now pass.old × HasLeft pass.old }
    ensures pass { IsPassOf (λ n. n.label) turn.now pass.new × HasLeft pass.new }
    ensures number { pass_number pass.new ≡ pass_number pass.old }
{
    let mut held = turn.enter(rt, pass);
    let found = held.get().items.as_slice() == want;
    Turn::leave(held, pass);
    found
}

pub fn add_at<W: Wait>(
    rt: &W,
    turn: &Turn<Numbers>,
    passes: &mut Vec<Pass<u64, u64>>,
    at: usize,
    number: u64,
) -> bool
    requires at { at < vec_len passes.old }
    requires passes { All (λ p. IsPassOf (λ n. n.label) turn.now p × HasLeft p) passes.old.items }
    ensures passes { All (λ p. IsPassOf (λ n. n.label) turn.now p × HasLeft p) passes.new.items }
    ensures count { vec_len passes.new ≡ vec_len passes.old }
    ensures numbers { (k : ℕ) (d : _) → k < vec_len passes.old
        → pass_number (slice_index_or passes.new.items k d)
        ≡ pass_number (slice_index_or passes.old.items k d) }
{
    add(rt, turn, &mut passes[at], number)
}

pub fn finds_at<W: Wait>(
    rt: &W,
    turn: &Turn<Numbers>,
    passes: &mut Vec<Pass<u64, u64>>,
    at: usize,
    want: &[(u32, u64)],
) -> bool
    requires at { at < vec_len passes.old }
    requires passes { All (λ p. IsPassOf (λ n. n.label) turn.now p × HasLeft p) passes.old.items }
    ensures passes { All (λ p. IsPassOf (λ n. n.label) turn.now p × HasLeft p) passes.new.items }
    ensures count { vec_len passes.new ≡ vec_len passes.old }
    ensures numbers { (k : ℕ) (d : _) → k < vec_len passes.old
        → pass_number (slice_index_or passes.new.items k d)
        ≡ pass_number (slice_index_or passes.old.items k d) }
{
    finds(rt, turn, &mut passes[at], want)
}

/// Each pass adds the numbers below `end`, in a thread of its own.
pub fn add_below_in_threads<W: Wait + Threads + Sync>(
    rt: &W,
    turn: &Turn<Numbers>,
    passes: &mut [Pass<u64, u64>],
    end: u64,
)
    requires { All (λ p. IsPassOf (λ n. n.label) turn.now p × HasLeft p) passes.old }
    ensures passes { All (λ p. IsPassOf (λ n. n.label) turn.now p × HasLeft p) passes.new }
    ensures count { length passes.new ≡ length passes.old }
    ensures numbers { (k : ℕ) (d : _) → k < length passes.old
        → pass_number (slice_index_or passes.new k d)
        ≡ pass_number (slice_index_or passes.old k d) }
{
    if passes.is_empty() {
        return;
    }
    let count = passes.len();
    thread::for_each_mut(rt, passes, count, &|_, pass| add_below(rt, turn, pass, end));
}
