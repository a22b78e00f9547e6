//! Pins at which values are seen from outside.

ghost use Rattle.std.specs.Prelude.{◌≡◌, ◌++◌, ◌<◌, length, IfOk, OnOk};
ghost use Rattle.std.specs.List.{filter};
ghost use Rattle.eco_net.specs.declared.ids.PinRef.{PinRef};
ghost use Rattle.eco_net.specs.declared.observables.Seen.TheVariants.{AtChip};
ghost use Rattle.eco_net.specs.Observables.{IsObservable};
ghost use Rattle.eco_net.specs.Listing.{Listing, netlist, IsKnownPin};
ghost use Rattle.eco_net.specs.ByNumber.{tops_to, pins_to, comp_pins, pin_count};
ghost use Rattle.eco_net.specs.PinOrder.{observed_order};
ghost use Rattle.eco_net.specs.Pins.{ArePins};
ghost use Rattle.eco_net.specs.Seen.{seen_at, is_seen, same_seen};

use crate::ids::{CompId, PinRef, TopId};
use crate::kind::PinUse;
use crate::netlist::Netlist;
use eco_common::{Dir, Memory};
use std::alloc::Global;

/// Where a value is seen from outside.
#[derive(Clone, Copy, Debug, Drop, PartialEq, Eq)]
pub(crate) enum Seen {
    /// At an OUTPUT or INOUT pin of the chip.
    AtChip,
    /// At an INPUT or INOUT pin of a box.
    AtBox,
    /// At a gate's output on a free net.
    AtGate,
}

impl Seen {
    /// Whether it is this that was found.
    fn is(self, found: Option<Seen>) -> bool
        ensures { result ≡ same_seen self found }
    {
        match found {
            Some(found) => self == found,
            None => false,
        }
    }
}

impl Netlist {
    /// Where the value of a pin is seen, or none where it isn't.
    fn seen_at(&self, pin: PinRef) -> Option<Seen>
        requires { IsKnownPin self.now pin }
        ensures { result ≡ seen_at self.now pin }
    {
        match pin {
            PinRef::Top(top) => match self.listed.top(top.0).dir {
                Dir::Input => None,
                Dir::Output => Some(Seen::AtChip),
                Dir::Inout => Some(Seen::AtChip),
            },
            PinRef::Pin(comp, pin) => {
                let row = self.listed.comp(comp.0);
                match row.kind.pin_use(pin as usize) {
                    PinUse::GateInput => None,
                    PinUse::GateOutput(_) => self.seen_free(row.joined.get(pin as usize)),
                    PinUse::BoxedPin(Dir::Output) => None,
                    PinUse::BoxedPin(_) => Some(Seen::AtBox),
                }
            }
        }
    }

    /// Adds the chip's pins at which values are seen.
    fn add_tops(&self, found: &mut Vec<PinRef>) -> Result<(), Memory>
        ensures { OnOk result (found.new.items ≡ found.old.items ++ filter (is_seen self.now AtChip) (tops_to (length self.now.tops))) }
    {
        for top in 0..self.counts().tops {
            let pin = PinRef::Top(TopId(top));
            if Seen::AtChip.is(self.seen_at(pin)) {
                found.push(pin)?;
            }
        }
        Ok(())
    }

    /// Adds those pins of a component at which values are seen so.
    fn add_pins(&self, comp: u32, seen: Seen, found: &mut Vec<PinRef>) -> Result<(), Memory>
        requires { comp < length self.now.comps }
        ensures { OnOk result (found.new.items ≡ found.old.items ++ filter (is_seen self.now seen) (pins_to comp (pin_count self.now comp))) }
    {
        for number in 0..self.listed.comp(comp).joined.len() as u32 {
            let pin = PinRef::Pin(CompId(comp), number);
            if seen.is(self.seen_at(pin)) {
                found.push(pin)?;
            }
        }
        Ok(())
    }

    /// Adds those pins of all components at which values are seen so.
    fn add_comps(&self, seen: Seen, found: &mut Vec<PinRef>) -> Result<(), Memory>
        ensures { OnOk result (found.new.items ≡ found.old.items ++ filter (is_seen self.now seen) (comp_pins 0 self.now.comps)) }
    {
        for comp in 0..self.counts().comps {
            self.add_pins(comp, seen, found)?;
        }
        Ok(())
    }

    /// The pins at which values are seen from outside, by number within each of three kinds: OUTPUT and INOUT pins of the
    /// chip, INPUT and INOUT pins of boxes, outputs of gates on free nets.
    pub fn observables(&self, alloc: Global) -> Result<Vec<PinRef>, Memory>
        ensures { IfOk result (λ found. ArePins self.now (observed_order self.now) (IsObservable (netlist self.now)) found.items) }
    {
        self.facts();
        let mut found = Vec::new(alloc);
        self.add_tops(&mut found)?;
        self.add_comps(Seen::AtBox, &mut found)?;
        self.add_comps(Seen::AtGate, &mut found)?;
        Ok(found)
    }
}

impl Netlist {
    ghost use Rattle.std.specs.Prelude.{IfSome};
    ghost use Rattle.eco_net.specs.Seen.{seen_free};

    /// Where the value of a gate's output on this net is seen, or none where it isn't.
    fn seen_free(&self, net: Option<u32>) -> Option<Seen>
        requires { IfSome net (λ n. n < length self.now.nets) }
        ensures { result ≡ seen_free self.now net }
    {
        match self.key_of(net?) {
            Some(_) => Some(Seen::AtGate),
            None => None,
        }
    }
}
