//! What a seat knows, and the rule of the table. The types other than `Start` exist in proofs alone.
use crate::kept::Kept;
use atomic_table::TableRule;
use std::collections::LinkedList;
use std::marker::PhantomData;
use std::snapshot::Snapshot;

/// Where the pass of a seat stands.
pub enum Stage {
    Outside,
    /// It has a ticket.
    Waiting,
    /// Its ticket is served, and it has the value.
    Inside,
}

/// What is kept of a pass that was returned.
pub struct Returned<E> {
    pub number: u64,
    pub seen: LinkedList<(u64, E)>,
    pub own: LinkedList<(u64, E)>,
}

/// What a seat knows.
pub struct View<E, F> {
    /// The number of its pass, from 1. The seat that others are split from has none, and one that was joined has none
    /// any more: 0.
    pub number: u64,
    /// At the seat that others are split from, how many seats there are. At each other 0.
    pub seats: u64,
    pub stage: Stage,
    /// How many tickets were drawn before its last one, since the turn was made.
    pub ticket: u64,
    /// The list that the pass saw last.
    pub seen: LinkedList<(u64, E)>,
    /// The entries that it made.
    pub own: LinkedList<(u64, E)>,
    /// The passes whose seats were joined to this one.
    pub returned: LinkedList<Returned<E>>,
    /// The fixed part of the turn's value. A seat that was joined has none any more.
    pub fixed: Option<F>,
}

/// What the table is made with.
#[derive(Drop)]
pub struct Start<T> {
    pub first: Snapshot<T>,
    pub passes: u32,
}

pub struct TurnRule<T> {
    of: PhantomData<T>,
}

impl<T: Kept> TableRule<Option<T>, View<T::Entry, T::Fixed>, Start<T>> for TurnRule<T> {
    ghost use Rattle.eco_turn.specs.Rule.{IsRuled, maker_view};

    ghost holds = { λ key. IsRuled T.entries T.fixed key.first.value key.passes };

    ghost first = { λ key. maker_view (T.entries key.first.value) (T.fixed key.first.value) };
}
