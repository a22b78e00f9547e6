//! Which driving pins each net has: none, one or several.

ghost use Rattle.std.specs.Prelude.{◌≡◌, ◌<◌, ◌+◌, ◌++◌, [], ◌∷◌, List, length, IfOk};
ghost use Rattle.eco_net.specs.declared.ids.PinRef.{PinRef};
ghost use Rattle.eco_net.specs.ByNumber.{sole, all_pins};
ghost use Rattle.eco_net.specs.Driving.{driving_of, each_driving, pins_before};

use crate::ids::{CompId, PinRef, TopId};
use crate::maker::NetlistMaker;
use eco_common::{Dir, Memory};
use std::alloc::Global;

/// How many driving pins of a net were met, and which one if it was one.
#[derive(Clone, Copy, Debug, Drop)]
pub enum Driving {
    None,
    One(PinRef),
    Several,
}

impl Driving {
    /// Notes one more driving pin.
    fn note(&mut self, pin: PinRef)
        ensures { (pins : List PinRef) → self.old ≡ driving_of pins → self.new ≡ driving_of (pins ++ pin ∷ []) }
    {
        *self = match *self {
            Driving::None => Driving::One(pin),
            Driving::One(_) | Driving::Several => Driving::Several,
        };
    }

    /// The pin, if it was one.
    pub(crate) fn sole(self) -> Option<PinRef>
        ensures { (pins : List PinRef) → self ≡ driving_of pins → result ≡ sole pins }
    {
        match self {
            Driving::One(pin) => Some(pin),
            Driving::None | Driving::Several => None,
        }
    }
}

/// Notes each driving top pin at its net.
fn note_tops(listed: &NetlistMaker, driving: &mut [Driving])
    requires { driving.old ≡ each_driving listed.now [] }
    ensures { driving.new ≡ each_driving listed.now (pins_before listed.now 0) }
{
    for top in 0..listed.top_count() {
        let row = listed.top(top);
        if row.dir != Dir::Output {
            driving[row.net as usize].note(PinRef::Top(TopId(top)));
        }
    }
}

/// Notes each driving pin of a component at its net.
fn note_comp(listed: &NetlistMaker, comp: u32, driving: &mut [Driving])
    requires known { comp < length listed.now.comps }
    requires noted { driving.old ≡ each_driving listed.now (pins_before listed.now comp) }
    ensures { driving.new ≡ each_driving listed.now (pins_before listed.now (comp + 1)) }
{
    let row = listed.comp(comp);
    for pin in 0..row.joined.len() as u32 {
        if let Some(net) = row.joined.get(pin as usize) {
            if row.kind.pin_use(pin as usize).is_driving() {
                driving[net as usize].note(PinRef::Pin(CompId(comp), pin));
            }
        }
    }
}

/// What is noted of each net. One walk over the rows in their order: to go to the row of each pin of each net would wait
/// for memory at every pin.
pub(crate) fn noted_of(alloc: Global, listed: &NetlistMaker) -> Result<Vec<Driving>, Memory>
    ensures { IfOk result (λ driving. driving.items ≡ each_driving listed.now (all_pins listed.now)) }
{
    let mut driving = vec![in alloc; Driving::None; listed.net_count() as usize]?;
    note_tops(listed, &mut driving);
    for comp in 0..listed.comp_count() {
        note_comp(listed, comp, &mut driving);
    }
    Ok(driving)
}
