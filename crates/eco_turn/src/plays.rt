//! What a seat learns from each step on a word, and how seats are split and joined.
ghost use Rattle.eco_turn.specs.Plays.{DrawsTicket, SeesServed, NotesLength, PassesOn, returned_of, left_view, right_view, joined_view, spent_view};

use crate::kept::Kept;
use crate::view::View;
use atomic_table::{Join, Play, Split};
use std::marker::PhantomData;

pub(crate) struct Draw;

impl<S, E, F> Play<S, View<E, F>> for Draw {
    ghost then = { DrawsTicket };
}

pub(crate) struct Look<T> {
    of: PhantomData<T>,
}

impl<T: Kept> Play<Option<T>, View<T::Entry, T::Fixed>> for Look<T> {
    ghost then = { SeesServed T.entries T.fixed };
}

pub(crate) struct Note<T> {
    of: PhantomData<T>,
}

impl<T: Kept> Play<Option<T>, View<T::Entry, T::Fixed>> for Note<T> {
    ghost then = { NotesLength T.entries };
}

pub(crate) struct PassOn;

impl<S, E, F> Play<S, View<E, F>> for PassOn {
    ghost then = { PassesOn };
}

pub(crate) struct SplitOff;

impl<E, F> Split<View<E, F>> for SplitOff {
    ghost left = { left_view };

    ghost right = { right_view };
}

pub(crate) struct JoinIn;

impl<E, F> Join<View<E, F>> for JoinIn {
    ghost both = { joined_view };

    ghost spent = { spent_view };
}
