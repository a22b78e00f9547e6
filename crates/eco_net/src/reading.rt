//! What was listed, by number and by name.

ghost use Rattle.std.specs.Prelude.{◌≡◌, ◌<◌, Some, None, length, slice_get, MatchOption, IfOk, IfSome};
ghost use Rattle.std.specs.FinMap.{get};
ghost use Rattle.std.specs.List.{AllZip};
ghost use Rattle.std.specs.Option.{option_map};
ghost use Rattle.std.specs.FinSet.{contains};
ghost use Rattle.eco_net.specs.Listing.{Listing, netlist, net_names, comp_names, FindsComp, IsKnownPin};
ghost use Rattle.eco_net.specs.Netlist.{IsWellFormed};
ghost use Rattle.eco_net.specs.Kept.{IsListing, IsRow};
ghost use Rattle.eco_net.specs.JoinedPins.{joined_pins, unconnected_pins};
ghost use Rattle.eco_net.specs.ByNumber.{net_at, drives, end_of, joint_at, found_of};

use crate::ids::{CompId, Counts, FoundComp, NetId, PinRef};
use crate::maker::NetlistMaker;
use crate::rows::{CompRow, NetRow, TopRow};
use eco_common::{Dir, Memory};
use std::alloc::Global;

impl NetlistMaker {
    /// What holds of every listing, for proofs: no name stands twice, and each net of a pin is there. It does nothing when it
    /// runs.
    pub fn facts(&self)
        ensures listing { IsListing self.now }
        ensures whole { IsWellFormed (netlist self.now) }
    {
        self.net_count();
    }

    /// How many nets, components and top pins were added.
    pub fn counts(&self) -> Counts
        ensures nets { result.nets ≡ length self.now.nets }
        ensures comps { result.comps ≡ length self.now.comps }
        ensures tops { result.tops ≡ length self.now.tops }
        ensures listing { IsListing self.now }
        ensures whole { IsWellFormed (netlist self.now) }
    {
        Counts {
            nets: self.net_count(),
            comps: self.comp_count(),
            tops: self.top_count(),
        }
    }

    /// The net of a name.
    pub fn find_net(&self, name: &[u8]) -> Option<NetId>
        ensures { MatchOption result (get (netlist self.now).nets name.now ≡ None) (λ n. slice_get (net_names self.now) n.0 ≡ Some name.now) }
    {
        match self.net_number(name) {
            Some(number) => Some(NetId(number)),
            None => None,
        }
    }

    /// The component of a name.
    pub fn find_comp(&self, name: &[u8]) -> Option<CompId>
        ensures { MatchOption result (get (netlist self.now).comps name.now ≡ None) (λ c. slice_get (comp_names self.now) c.0 ≡ Some name.now) }
    {
        match self.comp_number(name) {
            Some(number) => Some(CompId(number)),
            None => None,
        }
    }

    /// The name of a net.
    pub fn net_name(&self, net: NetId) -> &[u8]
        requires { net.0 < length self.now.nets }
        ensures { slice_get (net_names self.now) net.0 ≡ Some result.now }
    {
        self.net(net.0).name.bytes()
    }

    /// The component of a place, if there is one.
    fn found_at(&self, place: Option<u32>) -> Option<FoundComp>
        requires { IfSome place (λ c. c < length self.now.comps) }
        ensures { result ≡ option_map (found_of self.now) place }
    {
        match place {
            Some(place) => Some(FoundComp {
                id: CompId(place),
                pins: self.comp(place).kind.pin_count() as u32,
            }),
            None => None,
        }
    }

    /// The component of each name, as `find_comp` gives it. Look-ups of many names wait for memory together, and so do
    /// the components' rows, where their pins are counted.
    pub fn find_comps(
        &self,
        alloc: Global,
        names: &[&[u8]],
    ) -> Result<Vec<Option<FoundComp>>, Memory>
        ensures { IfOk result (λ found. AllZip (λ n f. FindsComp self.now n.now f) names.now found.items) }
    {
        let places = self.comp_places.find_all(alloc, names)?;
        let mut found = Vec::with_capacity(alloc, places.len())?;
        for place in &places {
            found.push(self.found_at(*place))?;
        }
        Ok(found)
    }

    /// How many nets there are.
    pub(crate) fn net_count(&self) -> u32
        ensures count { result ≡ length self.now.nets }
        ensures listing { IsListing self.now }
    {
        self.nets.len() as u32
    }

    /// How many components there are.
    pub(crate) fn comp_count(&self) -> u32
        ensures { result ≡ length self.now.comps }
    {
        self.comps.len() as u32
    }

    /// How many top pins there are.
    pub(crate) fn top_count(&self) -> u32
        ensures { result ≡ length self.now.tops }
    {
        self.tops.len() as u32
    }

    /// How many pins of components are on a net.
    pub fn joined_pins(&self) -> u64
        ensures { result ≡ joined_pins (netlist self.now) }
    {
        let mut count = 0;
        for comp in 0..self.counts().comps {
            count += self.comp(comp).joined.joined() as u64;
        }
        count
    }

    /// How many pins of components are unconnected.
    pub fn unconnected_pins(&self) -> u64
        ensures { result ≡ unconnected_pins (netlist self.now) }
    {
        let mut count = 0;
        for comp in 0..self.counts().comps {
            let joined = &self.comp(comp).joined;
            count += (joined.len() - joined.joined()) as u64;
        }
        count
    }

    /// The net of a number.
    pub(crate) fn net(&self, net: u32) -> &NetRow
        requires { net < length self.now.nets }
        ensures { slice_get self.now.nets net ≡ Some result.now }
    {
        &self.nets[net as usize]
    }

    /// The component of a number.
    pub(crate) fn comp(&self, comp: u32) -> &CompRow
        requires { comp < length self.now.comps }
        ensures at { slice_get self.now.comps comp ≡ Some result.now }
        ensures row { IsRow (length self.now.nets) result.now }
    {
        &self.comps[comp as usize]
    }

    /// The top pin of a number.
    pub(crate) fn top(&self, top: u32) -> &TopRow
        requires { top < length self.now.tops }
        ensures at { slice_get self.now.tops top ≡ Some result.now }
        ensures known { result.now.net < length self.now.nets }
    {
        &self.tops[top as usize]
    }

    /// The number of the net of a name.
    pub(crate) fn net_number(&self, name: &[u8]) -> Option<u32>
        ensures { MatchOption result (get (netlist self.now).nets name.now ≡ None) (λ n. slice_get (net_names self.now) n ≡ Some name.now) }
    {
        self.net_places.find(name)
    }

    /// The number of the component of a name.
    pub(crate) fn comp_number(&self, name: &[u8]) -> Option<u32>
        ensures { MatchOption result (get (netlist self.now).comps name.now ≡ None) (λ c. slice_get (comp_names self.now) c ≡ Some name.now) }
    {
        self.comp_places.find(name)
    }

    /// Whether a name stands for a component elsewhere.
    pub(crate) fn is_reserved(&self, name: &[u8]) -> bool
        ensures { result ≡ contains (netlist self.now).reserved name.now }
    {
        self.reserved_places.find(name).is_some()
    }

    /// The number of the net that a pin is on.
    pub(crate) fn net_of_pin(&self, pin: PinRef) -> Option<u32>
        requires { IsKnownPin self.now pin }
        ensures { result ≡ net_at self.now pin }
    {
        match pin {
            PinRef::Top(top) => Some(self.top(top.0).net),
            PinRef::Pin(comp, pin) => self.comp(comp.0).joined.get(pin as usize),
        }
    }
}
