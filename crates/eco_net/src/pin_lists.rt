//! A list of pins for each net, all in one list.

ghost use Rattle.std.specs.Prelude.{◌≡◌, ◌<◌, ◌^◌, [], ◌∷◌, sum, length, replicate, slice_index, slice_get, Some, IfOk};
ghost use Rattle.eco_net.specs.declared.ids.PinRef.{PinRef};
ghost use Rattle.eco_net.specs.PinLists.{put, sums, lists, AreEnds};

use crate::ids::{PinRef, TopId};
use eco_common::Memory;
use std::alloc::Global;
use std::marker::Model;

/// Lists that are being made, in two rounds of the same pins. In the first there are no places, and the pins of each
/// list are counted; in the second each pin goes to the next place of its list.
#[derive(Drop)]
pub struct Filling {
    ends: Vec<usize>,
    pins: Vec<PinRef>,
}

impl Model for Filling {
    ghost use Rattle.eco_net.specs.PinLists.{Places};

    ghost Value = { Places };

    ghost view = { λ f. record { ends = f.ends.items; pins = f.pins.items } };
}

/// A list of pins for each number, one after another.
#[derive(Drop)]
pub struct PinLists {
    ends: Vec<usize>,
    pins: Vec<PinRef>,
}

impl Model for PinLists {
    ghost use Rattle.std.specs.Prelude.{List, length};
    ghost use Rattle.eco_net.specs.declared.ids.PinRef.{PinRef};
    ghost use Rattle.eco_net.specs.PinLists.{lists, AreEnds};

    ghost Value = { List (List PinRef) };

    ghost view = { λ l. lists l.ends.items l.pins.items };

    ghost invariant = { λ l. AreEnds l.ends.items (length l.pins.items) };
}

/// Puts the sum of those before it in the place of each count, and answers the sum of all.
fn to_sums(counts: &mut [usize]) -> usize
    requires { sum counts.old < 2 ^ 60 }
    ensures each { counts.new ≡ sums counts.old }
    ensures all { result ≡ sum counts.old }
{
    let mut total = 0;
    for count in counts.iter_mut() {
        let before = total;
        total += *count;
        *count = before;
    }
    total
}

/// Where a list begins.
fn start_of(ends: &[usize], list: usize) -> usize
    requires { list < length ends.now }
    ensures { result ≡ slice_index (0 ∷ ends.now) list }
{
    if list == 0 { 0 } else { ends[list - 1] }
}

impl Filling {
    /// So many lists, to count their pins.
    pub(crate) fn new(alloc: Global, lists: u32) -> Result<Filling, Memory>
        ensures { IfOk result (λ f. f ≡ record { ends = replicate lists 0; pins = [] }) }
    {
        Ok(Filling {
            ends: vec![in alloc; 0; lists as usize]?,
            pins: Vec::new(alloc),
        })
    }

    /// Puts a pin at the next place of a list, or counts it where there are no places.
    pub(crate) fn put(&mut self, list: u32, pin: PinRef)
        requires known { list < length self.old.ends }
        requires few { slice_index self.old.ends list < 2 ^ 60 }
        ensures { self.new ≡ put self.old list pin }
    {
        let place = self.ends[list as usize];
        self.ends[list as usize] = place + 1;
        if place < self.pins.len() {
            self.pins[place] = pin;
        }
    }

    /// Places for as many pins of each list as were counted.
    pub(crate) fn with_places(self, alloc: Global) -> Result<Filling, Memory>
        requires { sum self.ends < 2 ^ 60 }
        ensures { IfOk result (λ f. f ≡ record { ends = sums self.ends; pins = replicate (sum self.ends) (PinRef.Top (record { 0 = 0 })) }) }
    {
        let Filling { mut ends, pins: _ } = self;
        let total = to_sums(&mut ends);
        Ok(Filling {
            ends,
            pins: vec![in alloc; PinRef::Top(TopId(0)); total]?,
        })
    }

    /// The lists, once each pin has its place.
    pub(crate) fn finish(self) -> PinLists
        requires { AreEnds self.ends (length self.pins) }
        ensures { result ≡ lists self.ends self.pins }
    {
        let Filling { ends, pins } = self;
        PinLists { ends, pins }
    }
}

impl PinLists {
    /// The pins of a list, in order.
    pub(crate) fn pins_of(&self, list: u32) -> &[PinRef]
        requires { list < length self.now }
        ensures { slice_get self.now list ≡ Some result.now }
    {
        let list = list as usize;
        let start = start_of(&self.ends, list);
        &self.pins[start..self.ends[list]]
    }
}
