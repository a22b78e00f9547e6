//! Listing a netlist.

use crate::ids::{CompId, NetId, TopId};
use crate::index::NameIndex;
use crate::joints::Joints;
use crate::kind::Kind;
use crate::rows::{CompRow, NetRow, TopRow};
use eco_common::{Dir, MAX_LISTED_COMPS, MAX_LISTED_NETS, MAX_TOP_PINS, Memory, Name, Point};
use std::alloc::Global;
use std::marker::Model;

/// A netlist that is being listed. Numbers are given in the order of adding, from 0.
///
/// After `Memory` it is as before the call.
#[derive(Drop)]
pub struct NetlistMaker {
    pub(crate) nets: Vec<NetRow>,
    pub(crate) comps: Vec<CompRow>,
    pub(crate) tops: Vec<TopRow>,
    pub(crate) reserved: Vec<Name>,
    pub(crate) net_places: NameIndex,
    pub(crate) comp_places: NameIndex,
    pub(crate) reserved_places: NameIndex,
}

impl Model for NetlistMaker {
    ghost use Rattle.eco_net.specs.Listing.{Listing};
    ghost use Rattle.eco_net.specs.Kept.{IsIndexed};

    ghost Value = { Listing };

    ghost view = { λ m. record { nets = m.nets.items; comps = m.comps.items; tops = m.tops.items; reserved = m.reserved.items } };

    ghost invariant = { λ m. IsIndexed (record { nets = m.nets.items; comps = m.comps.items; tops = m.tops.items; reserved = m.reserved.items }) m.net_places m.comp_places m.reserved_places };
}

impl NetlistMaker {
    ghost use Rattle.std.specs.Prelude.{◌≡◌, ◌<◌, [], ◌∷◌, ◌++◌, None, false, length, replicate, IsOk, IfOk, OnOk, OnErr};
    ghost use Rattle.std.specs.FinMap.{get};
    ghost use Rattle.eco_net.specs.Listing.{Listing, netlist, given_kind, HasOwnPins, IsKnownPin, net_name, numbered_pin, with_joint, without_joint, with_tie};
    ghost use Rattle.eco_net.specs.Changes.{empty_netlist, with_net, with_comp, with_top, with_tie_net, with_reserved, with_pin_on, with_pin_off};
    ghost use Rattle.eco_net.specs.Netlist.{pins_of};
    ghost use Rattle.eco_net.specs.declared.ids.PinRef.{PinRef};

    /// A netlist of nothing.
    pub fn new(alloc: Global) -> Result<NetlistMaker, Memory>
        ensures rows { IfOk result (λ m. m ≡ record { nets = []; comps = []; tops = []; reserved = [] }) }
        ensures named { IfOk result (λ m. netlist m ≡ empty_netlist) }
    {
        Ok(NetlistMaker {
            nets: Vec::new(alloc),
            comps: Vec::new(alloc),
            tops: Vec::new(alloc),
            reserved: Vec::new(alloc),
            net_places: NameIndex::new(alloc),
            comp_places: NameIndex::new(alloc),
            reserved_places: NameIndex::new(alloc),
        })
    }

    /// A netlist of nothing, with room for so many nets and components.
    pub fn with_room(alloc: Global, nets: usize, comps: usize) -> Result<NetlistMaker, Memory>
        ensures rows { IfOk result (λ m. m ≡ record { nets = []; comps = []; tops = []; reserved = [] }) }
        ensures named { IfOk result (λ m. netlist m ≡ empty_netlist) }
    {
        Ok(NetlistMaker {
            nets: Vec::with_capacity(alloc, nets)?,
            comps: Vec::with_capacity(alloc, comps)?,
            tops: Vec::new(alloc),
            reserved: Vec::new(alloc),
            net_places: NameIndex::with_capacity(alloc, nets)?,
            comp_places: NameIndex::with_capacity(alloc, comps)?,
            reserved_places: NameIndex::new(alloc),
        })
    }

    /// Adds a net of a new name, with its value if it is a supply.
    pub fn add_net(
        &mut self,
        alloc: Global,
        name: &[u8],
        supply: Option<bool>,
    ) -> Result<NetId, Memory>
        requires new_name { get (netlist self.old).nets name.now ≡ None }
        requires few { length self.old.nets < MAX_LISTED_NETS }
        ensures number { IfOk result (λ n. n.0 ≡ length self.old.nets) }
        ensures ok { OnOk result (self.new ≡ record self.old { nets = self.old.nets ++ record { name = name.now; supply = supply; tie = false } ∷ [] }) }
        ensures named { OnOk result (netlist self.new ≡ with_net (netlist self.old) name.now supply) }
        ensures err { OnErr result (self.new ≡ self.old) }
    {
        let number = self.nets.len() as u32;
        let row = NetRow {
            name: Name::of(alloc, name)?,
            supply,
            tie: false,
        };
        self.nets.reserve(1)?;
        self.net_places.insert(alloc, name, number)?;
        self.nets.push_reserved(row);
        Ok(NetId(number))
    }

    /// Adds a component of a new name, with its pins unconnected.
    pub fn add_comp(
        &mut self,
        alloc: Global,
        name: &[u8],
        kind: Kind,
        place: Option<Point>,
    ) -> Result<CompId, Memory>
        requires new_name { get (netlist self.old).comps name.now ≡ None }
        requires own_pins { HasOwnPins kind }
        requires few { length self.old.comps < MAX_LISTED_COMPS }
        ensures number { IfOk result (λ c. c.0 ≡ length self.old.comps) }
        ensures ok { OnOk result (self.new ≡ record self.old { comps = self.old.comps ++ record { name = name.now; kind = kind; place = place; joined = replicate (length (pins_of (given_kind kind))) None } ∷ [] }) }
        ensures named { OnOk result (netlist self.new ≡ with_comp (netlist self.old) name.now (given_kind kind) place) }
        ensures err { OnErr result (self.new ≡ self.old) }
    {
        let number = self.comps.len() as u32;
        let joined = Joints::none(alloc, kind.pin_count())?;
        let row = CompRow {
            name: Name::of(alloc, name)?,
            kind,
            place,
            joined,
        };
        self.comps.reserve(1)?;
        self.comp_places.insert(alloc, name, number)?;
        self.comps.push_reserved(row);
        Ok(CompId(number))
    }

    /// Adds a top pin of a new name, on a known net.
    pub fn add_top(
        &mut self,
        alloc: Global,
        name: &[u8],
        dir: Dir,
        net: NetId,
    ) -> Result<TopId, Memory>
        requires new_name { get (netlist self.old).tops name.now ≡ None }
        requires known_net { net.0 < length self.old.nets }
        requires few { length self.old.tops < MAX_TOP_PINS }
        ensures number { IfOk result (λ t. t.0 ≡ length self.old.tops) }
        ensures ok { OnOk result (self.new ≡ record self.old { tops = self.old.tops ++ record { name = name.now; dir = dir; net = net.0 } ∷ [] }) }
        ensures named { OnOk result (netlist self.new ≡ with_top (netlist self.old) name.now dir (net_name self.old.nets net.0)) }
        ensures err { OnErr result (self.new ≡ self.old) }
    {
        let number = self.tops.len() as u32;
        let row = TopRow {
            name: Name::of(alloc, name)?,
            dir,
            net: net.0,
        };
        self.tops.push(row)?;
        Ok(TopId(number))
    }

    /// Puts a pin on a known net, whichever net it was on before. It takes no memory, and the answer is always `Ok`.
    pub fn join(&mut self, comp: CompId, pin: u32, net: NetId) -> Result<(), Memory>
        requires known_pin { IsKnownPin self.old (PinRef.Pin comp pin) }
        requires known_net { net.0 < length self.old.nets }
        ensures always { IsOk result }
        ensures ok { OnOk result (self.new ≡ record self.old { comps = with_joint self.old.comps comp.0 pin net.0 }) }
        ensures named { OnOk result (netlist self.new ≡ with_pin_on (netlist self.old) (numbered_pin self.old (PinRef.Pin comp pin)) (net_name self.old.nets net.0)) }
        ensures err { OnErr result (self.new ≡ self.old) }
    {
        let row = &mut self.comps[comp.0 as usize];
        row.joined.put(pin as usize, net.0);
        Ok(())
    }

    /// Takes a pin off its net, if it is on one. It takes no memory.
    pub fn part(&mut self, comp: CompId, pin: u32)
        requires { IsKnownPin self.old (PinRef.Pin comp pin) }
        ensures rows { self.new ≡ record self.old { comps = without_joint self.old.comps comp.0 pin } }
        ensures named { netlist self.new ≡ with_pin_off (netlist self.old) (numbered_pin self.old (PinRef.Pin comp pin)) }
    {
        let row = &mut self.comps[comp.0 as usize];
        row.joined.take_off(pin as usize);
    }

    /// Marks a tie net.
    pub fn mark_tie(&mut self, net: NetId)
        requires { net.0 < length self.old.nets }
        ensures rows { self.new ≡ record self.old { nets = with_tie self.old.nets net.0 } }
        ensures named { netlist self.new ≡ with_tie_net (netlist self.old) (net_name self.old.nets net.0) }
    {
        let row = &mut self.nets[net.0 as usize];
        row.tie = true;
    }

    /// Marks a name that stands for a component elsewhere, as that of a spare in the stock.
    pub fn reserve_name(&mut self, alloc: Global, name: &[u8]) -> Result<(), Memory>
        ensures ok { OnOk result (self.new ≡ record self.old { reserved = self.old.reserved ++ name.now ∷ [] }) }
        ensures named { OnOk result (netlist self.new ≡ with_reserved (netlist self.old) name.now) }
        ensures err { OnErr result (self.new ≡ self.old) }
    {
        let row = Name::of(alloc, name)?;
        self.reserved.reserve(1)?;
        self.reserved_places.insert(alloc, name, 0)?;
        self.reserved.push_reserved(row);
        Ok(())
    }
}
