//! Components and pins of a netlist that is being listed.

ghost use Rattle.std.specs.Prelude.{◌≡◌, ◌<◌, Some, length, slice_get, IfOk, IfSome};
ghost use Rattle.std.specs.Option.{option_map};
ghost use Rattle.std.specs.FinMap.{get};
ghost use Rattle.std.specs.FinSet.{contains};
ghost use Rattle.eco_net.specs.declared.ids.PinRef.{PinRef};
ghost use Rattle.eco_net.specs.ByNumber.{role_at};
ghost use Rattle.eco_net.specs.Drivers.{net_of, dir_of_role};
ghost use Rattle.eco_net.specs.Listing.{netlist, comp_names, net_name, numbered_pin, IsFound, IsKnownPin, FindsPin, FindsPinNamed};
ghost use Rattle.eco_net.specs.Pins.{DriverIs};

use crate::drivers::noted_of;
use crate::ids::{CompId, FoundComp, NetId, PinRef};
use crate::kind::Kind;
use crate::maker::NetlistMaker;
use eco_common::{Dir, Memory, Point};
use std::alloc::Global;

impl NetlistMaker {
    /// The name of a component.
    pub fn comp_name(&self, comp: CompId) -> &[u8]
        requires { comp.0 < length self.now.comps }
        ensures { slice_get (comp_names self.now) comp.0 ≡ Some result.now }
    {
        self.comp(comp.0).name.bytes()
    }

    /// What a component is.
    pub fn kind(&self, comp: CompId) -> &Kind
        requires { comp.0 < length self.now.comps }
        ensures { option_map (λ r. r.kind) (slice_get self.now.comps comp.0) ≡ Some result.now }
    {
        &self.comp(comp.0).kind
    }

    /// Where a component is placed.
    pub fn place_of(&self, comp: CompId) -> Option<Point>
        requires { comp.0 < length self.now.comps }
        ensures { option_map (λ r. r.place) (slice_get self.now.comps comp.0) ≡ Some result }
    {
        self.comp(comp.0).place
    }

    /// The direction of a component's pin: a gate's inputs are inputs, its outputs are outputs.
    pub fn pin_dir(&self, comp: CompId, pin: u32) -> Dir
        requires { IsKnownPin self.now (PinRef.Pin comp pin) }
        ensures { option_map dir_of_role (role_at (slice_get self.now.comps comp.0) pin) ≡ Some result }
    {
        self.comp(comp.0).kind.pin_use(pin as usize).dir()
    }

    /// The value of a supply, or none where the net is no supply.
    pub fn supply(&self, net: NetId) -> Option<bool>
        requires { net.0 < length self.now.nets }
        ensures row { option_map (λ r. r.supply) (slice_get self.now.nets net.0) ≡ Some result }
        ensures named { get (netlist self.now).nets (net_name self.now.nets net.0) ≡ Some result }
    {
        self.facts();
        self.net(net.0).supply
    }

    /// Whether a net is a tie net.
    pub fn is_tie(&self, net: NetId) -> bool
        requires { net.0 < length self.now.nets }
        ensures row { option_map (λ r. r.tie) (slice_get self.now.nets net.0) ≡ Some result }
        ensures named { result ≡ contains (netlist self.now).ties (net_name self.now.nets net.0) }
    {
        self.facts();
        self.net(net.0).tie
    }

    /// The one driving pin of a net, as `Netlist::driver` gives it. It walks over all components: a finished netlist
    /// has it at hand.
    pub fn driver(&self, alloc: Global, net: NetId) -> Result<Option<PinRef>, Memory>
        requires { net.0 < length self.now.nets }
        ensures { IfOk result (DriverIs self.now (net_name self.now.nets net.0)) }
    {
        self.facts();
        let driving = noted_of(alloc, self)?;
        Ok(driving[net.0 as usize].sole())
    }

    /// The number of a component's pin of a name.
    pub fn find_pin(&self, comp: CompId, name: &[u8]) -> Option<u32>
        requires { comp.0 < length self.now.comps }
        ensures row { FindsPin (slice_get self.now.comps comp.0) name.now result }
        ensures named { FindsPinNamed self.now comp name.now result }
    {
        self.facts();
        self.comp(comp.0).kind.find_pin(name)
    }

    /// The same of a component that was looked up.
    pub fn find_pin_of(&self, comp: FoundComp, name: &[u8]) -> Option<u32>
        requires { IsFound self.now comp }
        ensures { FindsPin (slice_get self.now.comps comp.id.0) name.now result }
    {
        self.comp(comp.id.0).kind.find_among(comp.pins, name)
    }

    /// The net that a pin was put on.
    pub fn net_of(&self, pin: PinRef) -> Option<NetId>
        requires { IsKnownPin self.now pin }
        ensures named { option_map (λ n. net_name self.now.nets n.0) result ≡ net_of (netlist self.now) (numbered_pin self.now pin) }
        ensures known { IfSome result (λ n. n.0 < length self.now.nets) }
    {
        self.facts();
        match self.net_of_pin(pin) {
            Some(number) => Some(NetId(number)),
            None => None,
        }
    }
}
