//! A pass.
ghost use Rattle.std.specs.Prelude.{◌≡◌, length};
ghost use Rattle.eco_turn.specs.View.{seen_in};

use crate::view::View;
use atomic_table::Badge;
use std::snapshot::Snapshot;

/// The right to enter a turn. It knows the list that it saw when it last left, and the entries that it made.
///
/// A thread may send it to another. A turn that lost a pass can't be closed.
#[derive(Drop)]
pub struct Pass<E, F> {
    // Blank while the pass is inside.
    pub(crate) badge: Badge<View<E, F>>,
    // The badge as it was when the pass last left.
    pub(crate) last: Snapshot<Badge<View<E, F>>>,
    pub(crate) number: u32,
    pub(crate) seen: u64,
    ghost length_is: { seen ≡ length (seen_in last.value.views) },
}

impl<E, F> Pass<E, F> {
    ghost use Rattle.eco_turn.specs.Pass.{pass_number, pass_seen};

    pub(crate) fn of(badge: Badge<View<E, F>>, number: u32, seen: u64) -> Pass<E, F>
        requires { seen ≡ length (seen_in badge.views) }
        ensures { (result.badge ≡ badge) × (result.last.value ≡ badge) × (result.number ≡ number) }
    {
        let last = Snapshot::of(&badge);
        Pass {
            badge,
            last,
            number,
            seen,
        }
    }

    /// The number of the pass, from 1.
    pub fn number(&self) -> u32
        ensures { result ≡ pass_number self.now }
    {
        self.number
    }

    /// The length of the list that it saw when it last left.
    pub fn seen(&self) -> u64
        ensures { result ≡ length (pass_seen self.now) }
    {
        self.seen
    }
}
