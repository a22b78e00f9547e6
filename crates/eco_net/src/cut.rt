//! Where values come from outside: the cut keys of free nets.

ghost use Rattle.std.specs.Prelude.{◌≡◌, ◌↔◌, ◌<◌, length, map, IfOk};
ghost use Rattle.std.specs.List.{Contains, IsDistinct};
ghost use Rattle.std.specs.Ordering.{eq_by_cmp};
ghost use Rattle.eco_net.specs.CutKeys.{CutKey as NamedKey, IsCutKey, key_cmp};
ghost use Rattle.eco_net.specs.Listing.{Listing, netlist, net_names};
ghost use Rattle.eco_net.specs.KeysOf.{key_at, keys_of, key_named, KeysAlong};

use crate::ids::{CompId, NetId, PinRef, TopId};
use crate::kind::PinUse;
use crate::netlist::Netlist;
use eco_common::{Dir, Memory};
use std::alloc::Global;
use std::marker::Model;

/// The cut key of a free net: its only driving pin, if that is a top INPUT or a box's OUTPUT, and else the net itself.
#[derive(Clone, Copy, Debug, Drop, PartialEq, Eq)]
pub enum CutKey {
    Top(TopId),
    Boxed(CompId, u32),
    Net(NetId),
}

/// A bit for each cut key, in the order of `Netlist::cut_keys`.
#[derive(Drop)]
pub struct CutValues {
    pub(crate) bits: Vec<bool>,
}

impl Model for CutValues {
    ghost use Rattle.std.specs.Prelude.{List, Bool};

    ghost Value = { List Bool };

    ghost view = { λ c. c.bits.items };
}

impl CutValues {
    ghost use Rattle.std.specs.Prelude.{◌≡◌};

    /// These bits, in their order.
    pub fn new(bits: Vec<bool>) -> CutValues
        ensures { result ≡ bits.items }
    {
        CutValues { bits }
    }
}

impl Netlist {
    /// The cut key of a net, or none where it isn't free.
    pub(crate) fn key_of(&self, net: u32) -> Option<CutKey>
        requires { net < length self.now.nets }
        ensures { result ≡ key_at self.now net }
    {
        if self.listed.net(net).supply.is_some() {
            return None;
        }
        let own = CutKey::Net(NetId(net));
        match self.driver_at(net) {
            None => Some(own),
            Some(PinRef::Top(top)) => match self.listed.top(top.0).dir {
                Dir::Input => Some(CutKey::Top(top)),
                Dir::Output => Some(own),
                Dir::Inout => Some(own),
            },
            Some(PinRef::Pin(comp, pin)) => {
                match self.listed.comp(comp.0).kind.pin_use(pin as usize) {
                    PinUse::GateOutput(_) => None,
                    PinUse::BoxedPin(Dir::Output) => Some(CutKey::Boxed(comp, pin)),
                    PinUse::BoxedPin(_) => Some(own),
                    PinUse::GateInput => Some(own),
                }
            }
        }
    }

    /// The cut keys of the free nets, each once, in the order of their nets.
    pub fn cut_keys(&self, alloc: Global) -> Result<Vec<CutKey>, Memory>
        ensures numbers { IfOk result (λ keys. keys.items ≡ keys_of self.now) }
        ensures each { IfOk result (λ keys. (key : NamedKey) → IsCutKey (netlist self.now) key ↔ Contains (map (key_named self.now) keys.items) key) }
        ensures once { IfOk result (λ keys. IsDistinct (eq_by_cmp key_cmp) (map (key_named self.now) keys.items)) }
        ensures along { IfOk result (λ keys. KeysAlong (netlist self.now) (net_names self.now) (map (key_named self.now) keys.items)) }
    {
        let nets = self.counts().nets;
        let mut keys = Vec::new(alloc);
        for net in 0..nets {
            if let Some(key) = self.key_of(net) {
                keys.push(key)?;
            }
        }
        Ok(keys)
    }
}
