//! The value, while a pass is inside.
use crate::kept::Kept;
use crate::turn::Turn;
use crate::view::View;
use atomic_table::Seat;

/// The value of a turn, while its pass is inside. It must be given to [`Turn::leave`]: it can't be dropped.
pub struct Held<'a, T: Kept> {
    pub(crate) turn: &'a Turn<T>,
    pub(crate) seat: Seat<Option<T>, View<T::Entry, T::Fixed>>,
    pub(crate) value: T,
}

impl<'a, T: Kept> Held<'a, T> {
    ghost use Rattle.std.specs.Prelude.{◌≡◌};
    ghost use Rattle.std.specs.Borrow.{sem};
    ghost use Rattle.eco_turn.specs.Held.{held_value};
    ghost use Rattle.eco_turn.specs.Lending.{LendsValue};

    /// Lends the value.
    pub fn get(&mut self) -> &mut T
        ensures* writes_back { sem 𝓛 (LendsValue T.row T.Entry.row T.Fixed.row T.Kept self.entry result) }
        ensures value { result.now ≡ held_value self.old }
    {
        &mut self.value
    }
}
