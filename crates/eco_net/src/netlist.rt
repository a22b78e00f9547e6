//! A netlist: what was listed, and the driving pins of each net.

use crate::drivers::{Driving, noted_of};
use crate::ids::{CompId, Counts, NetId, PinRef, TopId};
use crate::kind::Kind;
use crate::maker::NetlistMaker;
use eco_common::{Dir, Memory, Point};
use std::alloc::Global;
use std::marker::Model;

/// A netlist that is listed whole. Its numbers are those that its maker gave.
#[derive(Drop)]
pub struct Netlist {
    pub(crate) listed: NetlistMaker,
    pub(crate) driving: Vec<Driving>,
}

/// A pin by its name and that of its component, or none for a top pin.
#[derive(Clone, Copy, Debug, Drop)]
pub struct PinName<'a> {
    pub comp: Option<&'a [u8]>,
    pub pin: &'a [u8],
}

impl Model for Netlist {
    ghost use Rattle.eco_net.specs.Listing.{Listing};
    ghost use Rattle.eco_net.specs.Kept.{IsFinished};

    ghost Value = { Listing };

    ghost view = { λ n. n.listed };

    ghost invariant = { λ n. IsFinished n.listed n.driving.items };
}

impl NetlistMaker {
    ghost use Rattle.std.specs.Prelude.{◌≡◌, IfOk};
    ghost use Rattle.eco_net.specs.Listing.{netlist};
    ghost use Rattle.eco_net.specs.Netlist.{IsWellFormed};

    /// The netlist that was listed.
    pub fn finish(self, alloc: Global) -> Result<Netlist, Memory>
        ensures listed { IfOk result (λ n. n ≡ self) }
        ensures whole { IfOk result (λ n. IsWellFormed (netlist n)) }
    {
        self.facts();
        let driving = noted_of(alloc, &self)?;
        Ok(Netlist {
            listed: self,
            driving,
        })
    }
}

impl Netlist {
    ghost use Rattle.std.specs.Prelude.{◌≡◌, ◌<◌, Some, None, length, slice_get, MatchOption, IfSome};
    ghost use Rattle.std.specs.Option.{option_map};
    ghost use Rattle.std.specs.FinMap.{get};
    ghost use Rattle.std.specs.FinSet.{contains};
    ghost use Rattle.eco_net.specs.declared.ids.PinRef.{PinRef};
    ghost use Rattle.eco_net.specs.Drivers.{net_of, dir_of_role};
    ghost use Rattle.eco_net.specs.Netlist.{IsWellFormed};
    ghost use Rattle.eco_net.specs.Listing.{Listing, netlist, net_names, comp_names, net_name, numbered_pin, pin_by, IsKnownPin, FindsPin, FindsPinNamed};
    ghost use Rattle.eco_net.specs.ByNumber.{role_at};
    ghost use Rattle.eco_net.specs.Kept.{IsListing};
    ghost use Rattle.eco_net.specs.Pins.{DriverIs};
    ghost use Rattle.eco_net.specs.JoinedPins.{joined_pins, unconnected_pins};

    /// What holds of every netlist, for proofs: no name stands twice, and each net of a pin is there. It does nothing when
    /// it runs.
    pub fn facts(&self)
        ensures listing { IsListing self.now }
        ensures whole { IsWellFormed (netlist self.now) }
    {
        self.listed.facts()
    }

    /// How many nets, components and top pins it has.
    pub fn counts(&self) -> Counts
        ensures nets { result.nets ≡ length self.now.nets }
        ensures comps { result.comps ≡ length self.now.comps }
        ensures tops { result.tops ≡ length self.now.tops }
        ensures listing { IsListing self.now }
        ensures whole { IsWellFormed (netlist self.now) }
    {
        self.listed.counts()
    }

    /// How many pins of components are on a net. Top pins are not counted.
    pub fn joined_pins(&self) -> u64
        ensures { result ≡ joined_pins (netlist self.now) }
    {
        self.listed.joined_pins()
    }

    /// How many pins of components are unconnected.
    pub fn unconnected_pins(&self) -> u64
        ensures { result ≡ unconnected_pins (netlist self.now) }
    {
        self.listed.unconnected_pins()
    }

    /// The net of a name.
    pub fn find_net(&self, name: &[u8]) -> Option<NetId>
        ensures { MatchOption result (get (netlist self.now).nets name.now ≡ None) (λ n. slice_get (net_names self.now) n.0 ≡ Some name.now) }
    {
        self.listed.find_net(name)
    }

    /// The component of a name.
    pub fn find_comp(&self, name: &[u8]) -> Option<CompId>
        ensures { MatchOption result (get (netlist self.now).comps name.now ≡ None) (λ c. slice_get (comp_names self.now) c.0 ≡ Some name.now) }
    {
        self.listed.find_comp(name)
    }

    /// The name of a net.
    pub fn net_name(&self, net: NetId) -> &[u8]
        requires { net.0 < length self.now.nets }
        ensures { slice_get (net_names self.now) net.0 ≡ Some result.now }
    {
        self.listed.net(net.0).name.bytes()
    }

    /// The name of a component.
    pub fn comp_name(&self, comp: CompId) -> &[u8]
        requires { comp.0 < length self.now.comps }
        ensures { slice_get (comp_names self.now) comp.0 ≡ Some result.now }
    {
        self.listed.comp(comp.0).name.bytes()
    }

    /// What a component is.
    pub fn kind(&self, comp: CompId) -> &Kind
        requires { comp.0 < length self.now.comps }
        ensures { option_map (λ r. r.kind) (slice_get self.now.comps comp.0) ≡ Some result.now }
    {
        &self.listed.comp(comp.0).kind
    }

    /// Where a component is placed.
    pub fn place_of(&self, comp: CompId) -> Option<Point>
        requires { comp.0 < length self.now.comps }
        ensures { option_map (λ r. r.place) (slice_get self.now.comps comp.0) ≡ Some result }
    {
        self.listed.comp(comp.0).place
    }

    /// The direction of a top pin.
    pub fn top_dir(&self, top: TopId) -> Dir
        requires { top.0 < length self.now.tops }
        ensures { option_map (λ r. r.dir) (slice_get self.now.tops top.0) ≡ Some result }
    {
        self.listed.top(top.0).dir
    }

    /// The value of a supply, or none where the net is no supply.
    pub fn supply(&self, net: NetId) -> Option<bool>
        requires { net.0 < length self.now.nets }
        ensures row { option_map (λ r. r.supply) (slice_get self.now.nets net.0) ≡ Some result }
        ensures named { get (netlist self.now).nets (net_name self.now.nets net.0) ≡ Some result }
    {
        self.listed.supply(net)
    }

    /// Whether a net is a tie net.
    pub fn is_tie(&self, net: NetId) -> bool
        requires { net.0 < length self.now.nets }
        ensures row { option_map (λ r. r.tie) (slice_get self.now.nets net.0) ≡ Some result }
        ensures named { result ≡ contains (netlist self.now).ties (net_name self.now.nets net.0) }
    {
        self.listed.is_tie(net)
    }

    /// Whether a name stands for a component elsewhere.
    pub fn is_reserved(&self, name: &[u8]) -> bool
        ensures { result ≡ contains (netlist self.now).reserved name.now }
    {
        self.listed.is_reserved(name)
    }

    /// The direction of a component's pin: a gate's inputs are inputs, its outputs are outputs.
    pub fn pin_dir(&self, comp: CompId, pin: u32) -> Dir
        requires { IsKnownPin self.now (PinRef.Pin comp pin) }
        ensures { option_map dir_of_role (role_at (slice_get self.now.comps comp.0) pin) ≡ Some result }
    {
        self.listed.comp(comp.0).kind.pin_use(pin as usize).dir()
    }

    /// The name of a pin.
    pub fn pin_name(&self, pin: PinRef) -> PinName<'_>
        requires { IsKnownPin self.now pin }
        ensures { numbered_pin self.now pin ≡ pin_by (option_map (λ c. c.now) result.comp) result.pin.now }
    {
        match pin {
            PinRef::Top(top) => PinName {
                comp: None,
                pin: self.listed.top(top.0).name.bytes(),
            },
            PinRef::Pin(comp, pin) => {
                let row = self.listed.comp(comp.0);
                PinName {
                    comp: Some(row.name.bytes()),
                    pin: row.kind.pin_name(pin as usize),
                }
            }
        }
    }

    /// The net that a pin is on.
    pub fn net_of(&self, pin: PinRef) -> Option<NetId>
        requires { IsKnownPin self.now pin }
        ensures named { option_map (λ n. net_name self.now.nets n.0) result ≡ net_of (netlist self.now) (numbered_pin self.now pin) }
        ensures known { IfSome result (λ n. n.0 < length self.now.nets) }
    {
        match self.listed.net_of_pin(pin) {
            Some(number) => Some(NetId(number)),
            None => None,
        }
    }

    /// The number of a component's pin of a name.
    pub fn find_pin(&self, comp: CompId, name: &[u8]) -> Option<u32>
        requires { comp.0 < length self.now.comps }
        ensures row { FindsPin (slice_get self.now.comps comp.0) name.now result }
        ensures named { FindsPinNamed self.now comp name.now result }
    {
        self.listed.find_pin(comp, name)
    }

    /// The one driving pin of a net, or none where it has none or several. Driving pins are the chip's INPUT and INOUT
    /// pins, and the OUTPUT and INOUT pins of components.
    pub fn driver(&self, net: NetId) -> Option<PinRef>
        requires { net.0 < length self.now.nets }
        ensures { DriverIs self.now (net_name self.now.nets net.0) result }
    {
        self.driver_at(net.0)
    }
}
