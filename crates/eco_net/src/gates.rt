//! Computed nets: the gate that drives each, and the nets that it reads.

use crate::ids::{CompId, PinRef};
use crate::kind::Kind;
use crate::netlist::Netlist;

impl Kind {
    ghost use Rattle.std.specs.Prelude.{◌≡◌, ◌≤◌, length};
    ghost use Rattle.eco_net.specs.Gates.{input_count};

    /// How many inputs it has, if it is a gate.
    pub(crate) fn input_count(&self) -> usize
        ensures count { result ≡ input_count self.now }
        ensures few { result ≤ 6 }
    {
        match self {
            Kind::Gate(master) => master.inputs().len(),
            Kind::Boxed(_) => 0,
        }
    }
}

impl Netlist {
    ghost use Rattle.std.specs.Prelude.{◌≡◌, ◌<◌, length, IfSome};
    ghost use Rattle.eco_net.specs.Listing.{Listing, net_name, IsKnownPin};
    ghost use Rattle.eco_net.specs.ByNumber.{driver_at};
    ghost use Rattle.eco_net.specs.Pins.{DriverIs};
    ghost use Rattle.eco_net.specs.Gates.{computed_by};

    /// The one driving pin of a net.
    pub(crate) fn driver_at(&self, net: u32) -> Option<PinRef>
        requires { net < length self.now.nets }
        ensures found { result ≡ driver_at self.now net }
        ensures known { IfSome result (IsKnownPin self.now) }
        ensures named { DriverIs self.now (net_name self.now.nets net) result }
    {
        self.driving[net as usize].sole()
    }

    /// The gate's output that computes a net, or none where it is no computed net.
    pub(crate) fn gate_of(&self, net: u32) -> Option<(CompId, u32)>
        requires { net < length self.now.nets }
        ensures { result ≡ computed_by self.now net }
    {
        if self.listed.net(net).supply.is_some() {
            return None;
        }
        match self.driver_at(net) {
            None => None,
            Some(PinRef::Top(_)) => None,
            Some(PinRef::Pin(comp, pin)) => match &self.listed.comp(comp.0).kind {
                Kind::Gate(_) => Some((comp, pin)),
                Kind::Boxed(_) => None,
            },
        }
    }
}
