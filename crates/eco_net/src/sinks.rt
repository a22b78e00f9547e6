//! The sinks of a net, and how many pins drive it.

ghost use Rattle.std.specs.Prelude.{◌≡◌, ◌<◌, length, IfOk};
ghost use Rattle.std.specs.List.{filter};
ghost use Rattle.eco_net.specs.Drivers.{IsSink, HasDrivers};
ghost use Rattle.eco_net.specs.Listing.{Listing, netlist, net_name};
ghost use Rattle.eco_net.specs.ByNumber.{drives, all_pins, by_net};
ghost use Rattle.eco_net.specs.PinOrder.{pin_order};
ghost use Rattle.eco_net.specs.Pins.{ArePins};
ghost use Rattle.eco_net.specs.SinksOf.{is_other, ArePinLists};

use crate::drivers::Driving;
use crate::ids::{NetId, PinRef};
use crate::net_pins::{driving_on, pins_on};
use crate::netlist::Netlist;
use crate::pin_lists::PinLists;
use crate::pins::pins_by_net;
use eco_common::Memory;
use std::alloc::Global;

/// Whether a pin isn't the driver.
fn is_other(driver: Option<PinRef>, pin: PinRef) -> bool
    ensures { result ≡ is_other driver pin }
{
    match driver {
        None => true,
        Some(driver) => driver != pin,
    }
}

/// The pins but the driver, in their order.
fn others(alloc: Global, pins: &[PinRef], driver: Option<PinRef>) -> Result<Vec<PinRef>, Memory>
    ensures { IfOk result (λ found. found.items ≡ filter (is_other driver) pins.now) }
{
    let mut found = Vec::new(alloc);
    for pin in pins {
        if is_other(driver, *pin) {
            found.push(*pin)?;
        }
    }
    Ok(found)
}

impl Netlist {
    /// All pins of a net but the one that `driver` gives: top pins first, then by component and pin number. It walks over
    /// all pins: where the sinks of many nets are wanted, `pin_lists` walks once.
    pub fn sinks(&self, alloc: Global, net: NetId) -> Result<Vec<PinRef>, Memory>
        requires { net.0 < length self.now.nets }
        ensures { IfOk result (λ found. ArePins self.now pin_order (IsSink (netlist self.now) (net_name self.now.nets net.0)) found.items) }
    {
        self.facts();
        let pins = pins_on(alloc, &self.listed, net.0)?;
        others(alloc, &pins, self.driver_at(net.0))
    }

    /// The pins of each net, for `sinks_in`.
    pub fn pin_lists(&self, alloc: Global) -> Result<PinLists, Memory>
        ensures { IfOk result (ArePinLists self.now) }
    {
        pins_by_net(alloc, &self.listed)
    }

    /// The sinks of a net, as `sinks` gives them, from the lists of this netlist.
    pub fn sinks_in(
        &self,
        alloc: Global,
        lists: &PinLists,
        net: NetId,
    ) -> Result<Vec<PinRef>, Memory>
        requires known { net.0 < length self.now.nets }
        requires lists { ArePinLists self.now lists.now }
        ensures { IfOk result (λ found. ArePins self.now pin_order (IsSink (netlist self.now) (net_name self.now.nets net.0)) found.items) }
    {
        self.facts();
        others(alloc, lists.pins_of(net.0), self.driver_at(net.0))
    }

    /// How many pins drive a net. Where there are several it walks over all pins.
    pub fn driver_count(&self, alloc: Global, net: NetId) -> Result<usize, Memory>
        requires { net.0 < length self.now.nets }
        ensures { IfOk result (HasDrivers (netlist self.now) (net_name self.now.nets net.0)) }
    {
        match self.driving[net.0 as usize] {
            Driving::None => Ok(0),
            Driving::One(_) => Ok(1),
            Driving::Several => Ok(driving_on(alloc, &self.listed, net.0)?.len()),
        }
    }
}
