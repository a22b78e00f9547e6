//! The turn.
ghost use Rattle.std.specs.Prelude.{◌≡◌, ◌<◌};

use crate::kept::Kept;
use crate::view::{Start, TurnRule, View};
use atomic_table::Table;
use std::alloc::Global;

mod close;
mod enter;
mod open;

// The words of the table: the next ticket, the ticket that is served, and the length of the history.
const TICKET: usize = 0;

const SERVING: usize = 1;

const COUNT: usize = 2;

/// A value that passes take one after another, with the history of what they added.
///
/// Threads share it by reference. A turn over a value that isn't `Drop` must be closed.
#[derive(Drop)]
pub struct Turn<T: Kept> {
    pub(crate) table: Table<Option<T>, View<T::Entry, T::Fixed>, Start<T>, TurnRule<T>, Global>,
    ghost counts: { (table.shared.table_id.words ≡ 3) × (table.shared.table_id.slots ≡ 1) },
    ghost has_passes: { 0 < table.shared.key.passes },
}
