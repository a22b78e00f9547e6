//! Entering and leaving.
ghost use Rattle.std.specs.Prelude.{◌≡◌, ◌<◌, ◌%◌, ◌^◌, [], ◌++◌, drop, length};
ghost use mathlib.Core.List.{IsPrefix};
ghost use Rattle.eco_turn.specs.Entries.{entries_by, Adds};
ghost use Rattle.eco_turn.specs.Plays.{Took};
ghost use Rattle.eco_turn.specs.Pass.{pass_number, pass_seen, pass_own, HasLeft};
ghost use Rattle.eco_turn.specs.Turn.{turn_id, turn_start, IsPassOf};
ghost use Rattle.eco_turn.specs.Held.{held_turn, held_value, found_entries, IsInside};
ghost use Rattle.eco_turn.specs.declared.view.Stage.TheVariants.{Waiting};

use super::{COUNT, SERVING, TICKET, Turn};
use crate::held::Held;
use crate::kept::Kept;
use crate::pass::Pass;
use crate::plays::{Draw, Look, Note, PassOn};
use crate::view::View;
use atomic_table::{Badge, Seat};
use std::mem;
use std::sync::Wait;
use std::thread::yield_now;

// How often a seat looks before it sleeps.
const LOOKS: u32 = 100;

// A sleep is on the low 32 bits of a word.
const LOW: u64 = 1 << 32;

impl<T: Kept> Turn<T> {
    /// Waits until the ticket is served.
    fn await_turn<W: Wait>(
        &self,
        rt: &W,
        seat: &mut Seat<Option<T>, View<T::Entry, T::Fixed>>,
        ticket: u64,
    )
        requires seat { (seat.old.table_id ≡ turn_id self.now) × (seat.old.me.1 ≡ []) }
        requires waits { (seat.old.me.0.stage ≡ Waiting) × (0 < seat.old.me.0.number) }
        requires ticket { seat.old.me.0.ticket % 2 ^ 64 ≡ ticket }
        ensures seat { seat.new.table_id ≡ seat.old.table_id }
        ensures took { (x : T) × Took T.entries T.fixed seat.old.me x seat.new.me }
    {
        let mut looks: u32 = 0;
        for _ in rt.forever() {
            let served = self.table.shared.load::<Look<T>>(seat, SERVING);
            if served == ticket {
                return;
            }
            if looks < LOOKS {
                looks += 1;
                yield_now();
            } else {
                self.table.shared.park(rt, SERVING, (served % LOW) as u32);
            }
        }
        unreachable!()
    }

    /// Waits for the pass's turn, and takes the value.
    pub fn enter<W: Wait>(&self, rt: &W, pass: &mut Pass<T::Entry, T::Fixed>) -> Held<'_, T>
        requires pass { IsPassOf T.fixed self.now pass.old × HasLeft pass.old }
        ensures pass { IsPassOf T.fixed self.now pass.new × (pass_number pass.new ≡ pass_number pass.old) }
        ensures knows { (pass_seen pass.new ≡ pass_seen pass.old) × (pass_own pass.new ≡ pass_own pass.old) }
        ensures inside { IsInside T.fixed result pass.new × (held_turn result ≡ self.now) }

        // The list found begins with what the pass saw last, and the pass's own entries stand in it, each once.
        ensures found { T.entries (held_value result) ≡ found_entries result }
        ensures begins { IsPrefix (pass_seen pass.old) (found_entries result) }
        ensures own { entries_by (pass_number pass.old) (found_entries result) ≡ pass_own pass.old }
        ensures fixed { T.fixed (held_value result) ≡ T.fixed (turn_start self.now) }
    {
        let badge = mem::replace(&mut pass.badge, Badge::blank());
        let mut seat: Seat<Option<T>, View<T::Entry, T::Fixed>> = badge.into_seat::<Option<T>>();
        let ticket = self.table.shared.fetch_add::<Draw>(&mut seat, TICKET, 1);
        self.await_turn(rt, &mut seat, ticket);
        let slot = self.table.shared.exchange(&mut seat, 0, None);
        let Some(value) = slot else { unreachable!() };
        Held {
            turn: self,
            seat,
            value,
        }
    }

    /// Puts the value back, and lets the next pass in. The pass has now seen the value's list.
    pub fn leave(held: Held<'_, T>, pass: &mut Pass<T::Entry, T::Fixed>)
        requires pass { IsPassOf T.fixed (held_turn held) pass.old × IsInside T.fixed held pass.old }
        requires adds { Adds (pass_number pass.old) (found_entries held) (T.entries (held_value held)) }
        requires fixed { T.fixed (held_value held) ≡ T.fixed (turn_start (held_turn held)) }
        ensures pass { IsPassOf T.fixed (held_turn held.entry) pass.new
            × HasLeft pass.new
            × (pass_number pass.new ≡ pass_number pass.old) }
        ensures seen { pass_seen pass.new ≡ T.entries (held_value held.entry) }
        ensures begins { IsPrefix (found_entries held.entry) (pass_seen pass.new) }
        ensures own { pass_own pass.new
            ≡ pass_own pass.old
            ++ drop (length (found_entries held.entry)) (T.entries (held_value held.entry)) }
    {
        let Held {
            turn,
            mut seat,
            value,
        } = held;
        let length = value.length();
        let shared = &turn.table.shared;
        let slot = shared.exchange(&mut seat, 0, Some(value));
        let None = slot else { unreachable!() };
        shared.swap::<Note<T>>(&mut seat, COUNT, length);
        let served = shared.fetch_add::<PassOn>(&mut seat, SERVING, 1);
        if shared.peek(TICKET) != served.wrapping_add(1) {
            shared.wake_all(SERVING);
        }
        let number = pass.number;
        *pass = Pass::of(seat.into_badge(), number, length);
    }
}
