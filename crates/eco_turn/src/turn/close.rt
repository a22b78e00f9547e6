//! Ending a turn.
ghost use Rattle.std.specs.Prelude.{◌≡◌, ℕ, ◌<◌, [], All, vec_len};
ghost use mathlib.Core.Option.{some};
ghost use mathlib.Core.List.{IsPrefix};
ghost use lib.ListN.{get_elem?};
ghost use Rattle.eco_turn.specs.Entries.{entries_by, Grows};
ghost use Rattle.eco_turn.specs.Joined.{IsKnown, IsIdle};
ghost use Rattle.eco_turn.specs.Pass.{pass_number, pass_seen, pass_own, HasLeft, AreAll};
ghost use Rattle.eco_turn.specs.Turn.{turn_id, turn_start, turn_passes, IsPassOf};

use super::Turn;
use crate::kept::Kept;
use crate::pass::Pass;
use crate::plays::JoinIn;
use crate::view::View;
use atomic_table::Seat;

impl<T: Kept> Turn<T> {
    /// Ends the turn, whose passes must all be returned, in any order, and gives the value back. It takes no memory.
    pub fn close(self, passes: Vec<Pass<T::Entry, T::Fixed>>) -> T
        requires all { AreAll (turn_passes self) passes.items }
        requires each { All (λ p. IsPassOf T.fixed self p × HasLeft p) passes.items }
        ensures fixed { T.fixed result ≡ T.fixed (turn_start self) }

        // The list begins with what each pass saw last, and the entries of each are its own, each once.
        ensures seen { All (λ p. IsPrefix (pass_seen p) (T.entries result)) passes.items }
        ensures own { All (λ p. entries_by (pass_number p) (T.entries result) ≡ pass_own p) passes.items }
        ensures grown { Grows (turn_passes self) (T.entries (turn_start self)) (T.entries result) }
    {
        let seat = self.join_passes(passes);
        let Turn { table } = self;
        let mut closed = table.close_with(seat);
        let slot = closed.take(0);
        closed.free();
        let Some(value) = slot else { unreachable!() };
        value
    }

    /// Makes one seat of all passes.
    fn join_passes(
        &self,
        mut passes: Vec<Pass<T::Entry, T::Fixed>>,
    ) -> Seat<Option<T>, View<T::Entry, T::Fixed>>
        requires some { 0 < vec_len passes }
        requires each { (k : ℕ) (p : _) → get_elem? passes.items k ≡ some p
            → IsPassOf T.fixed self.now p × HasLeft p }
        ensures seat { (result.table_id ≡ turn_id self.now) × (result.me.1 ≡ []) × IsIdle result.me.0 }
        ensures each { (k : ℕ) (p : _) → get_elem? passes.items k ≡ some p → IsKnown p result.me.0 }
    {
        let Some(last) = passes.pop() else {
            unreachable!()
        };
        let mut seat: Seat<Option<T>, View<T::Entry, T::Fixed>> = last
            .badge
            .into_seat::<Option<T>>();
        while let Some(pass) = passes.pop() {
            let other: Seat<Option<T>, View<T::Entry, T::Fixed>> = pass
                .badge
                .into_seat::<Option<T>>();
            self.table.shared.join_seat::<JoinIn>(&mut seat, other);
        }
        passes.destroy_empty();
        seat
    }
}
