//! Making a turn.
ghost use Rattle.std.specs.Prelude.{◌≡◌, ℕ, ◌<◌, ◌≤◌, ◌+◌, [], ◌∷◌, All, Some, IfOk, IfErr, length, vec_len, vec_capacity};
ghost use mathlib.Core.Option.{some};
ghost use lib.ListN.{get_elem?};
ghost use Rattle.eco_turn.specs.Entries.{IsPass};
ghost use Rattle.eco_turn.specs.Rule.{maker_view};
ghost use Rattle.eco_turn.specs.Turn.{turn_id, turn_start, turn_passes, IsNew, AreNew};

use super::Turn;
use crate::kept::Kept;
use crate::pass::Pass;
use crate::plays::SplitOff;
use crate::view::{Start, View};
use atomic_table::{Seat, Table};
use eco_common::Memory;
use std::alloc::Global;
use std::snapshot::Snapshot;

impl<T: Kept> Turn<T> {
    /// Makes a turn over the value, and `passes` passes, numbered from 1. If memory runs out, the value is returned.
    pub fn new(
        alloc: Global,
        value: T,
        passes: u32,
    ) -> Result<(Turn<T>, Vec<Pass<T::Entry, T::Fixed>>), (T, Memory)>
        requires passes { (0 < passes) × (passes ≤ 64) }
        requires none { All (λ e. ¬ IsPass passes e.0) (T.entries value) }
        ensures turn { IfOk result (λ r. (turn_start r.0 ≡ value) × (turn_passes r.0 ≡ passes)) }
        ensures count { IfOk result (λ r. vec_len r.1 ≡ passes) }
        ensures passes { IfOk result (λ r. AreNew T.entries T.fixed r.0 value r.1.items) }
        ensures back { IfErr result (λ e. e.0 ≡ value) }
    {
        let Ok(mut list) = Vec::with_capacity(alloc, passes as usize) else {
            return Err((value, Memory));
        };
        let length = value.length();
        match Turn::open(alloc, value, passes, length) {
            Ok((turn, seat)) => {
                turn.make_passes(seat, &mut list, passes, length);
                Ok((turn, list))
            }
            Err(value) => {
                list.destroy_empty();
                Err((value, Memory))
            }
        }
    }

    /// Makes a turn over the value, and its first seat.
    fn open(
        alloc: Global,
        value: T,
        passes: u32,
        length: u64,
    ) -> Result<(Turn<T>, Seat<Option<T>, View<T::Entry, T::Fixed>>), T>
        requires passes { (0 < passes) × (passes ≤ 64) }
        requires none { All (λ e. ¬ IsPass passes e.0) (T.entries value) }
        requires length { length ≡ Rattle.std.specs.Prelude.length (T.entries value) }
        ensures turn { IfOk result (λ r. (turn_start r.0 ≡ value) × (turn_passes r.0 ≡ passes)) }
        ensures seat { IfOk
            result
            (λ r. (r.1.table_id ≡ turn_id r.0)
            × (r.1.me ≡ (maker_view (T.entries value) (T.fixed value), []))) }
        ensures back { IfErr result (λ v. v ≡ value) }
    {
        let start = Start {
            first: Snapshot::of(&value),
            passes,
        };
        let mut slots = Vec::new(alloc);
        if let Err(failed) = slots.push(Some(value)) {
            slots.destroy_empty();
            let Some(value) = failed.value else {
                unreachable!()
            };
            return Err(value);
        }
        match Table::new(alloc, &[0, 0, length], slots, &start) {
            Ok((table, seat)) => Ok((Turn { table }, seat)),
            Err(refused) => Err(value_in(refused.slots)),
        }
    }

    /// Splits the passes from the first seat.
    fn make_passes(
        &self,
        mut seat: Seat<Option<T>, View<T::Entry, T::Fixed>>,
        list: &mut Vec<Pass<T::Entry, T::Fixed>>,
        passes: u32,
        length: u64,
    )
        requires table { seat.table_id ≡ turn_id self.now }
        requires seat { seat.me ≡ (maker_view (T.entries (turn_start self.now)) (T.fixed (turn_start self.now)), []) }
        requires count { turn_passes self.now ≡ passes }
        requires length { length ≡ Rattle.std.specs.Prelude.length (T.entries (turn_start self.now)) }
        requires room { (list.old.items ≡ []) × (passes ≤ vec_capacity list.old) }
        ensures count { vec_len list.new ≡ passes }
        ensures each { (k : ℕ) (p : _) → get_elem? list.new.items k ≡ some p
            → IsNew T.entries T.fixed self.now (turn_start self.now) (k + 1) p }
    {
        for made in 0..passes {
            let new = self.table.shared.split_seat::<SplitOff>(&mut seat);
            list.push_reserved(Pass::of(new.into_badge(), made + 1, length));
        }
    }
}

/// Takes the value out of its slot.
fn value_in<T>(mut slots: Vec<Option<T>>) -> T
    requires { (x : T) × (slots.items ≡ Some x ∷ []) }
    ensures { slots.items ≡ Some result ∷ [] }
{
    let Some(slot) = slots.pop() else {
        unreachable!()
    };
    slots.destroy_empty();
    let Some(value) = slot else { unreachable!() };
    value
}
