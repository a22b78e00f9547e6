//! How many pins drive a net, how many are unconnected, and sinks from lists that are made once.

use crate::net::{netlist_of, sample};
use crate::said::agree;
use eco_net::{NetId, Netlist};
use std::alloc::Global;
use std::test::Fail;

/// Each net with the number of pins that drive it.
fn drivers_said(alloc: Global, netlist: &Netlist) -> Result<String, Fail> {
    let mut line = String::new(alloc);
    for net in 0..netlist.counts().nets {
        let count = netlist.driver_count(alloc, NetId(net))?;
        let name = str::from_utf8(netlist.net_name(NetId(net)))?;
        write!(line, " {name}={count}")?;
    }
    Ok(line)
}

fn check_counts(alloc: Global, netlist: &Netlist) -> Result<(), Fail> {
    let drivers = drivers_said(alloc, netlist)?;
    agree(
        &drivers,
        " VDD=0 VSS=0 a=1 b=0 y=1 z=2 q=1 pad=1",
        "drivers",
    )?;
    let (joined, unconnected) = (netlist.joined_pins(), netlist.unconnected_pins());
    let pins = format!(in alloc; "{joined} {unconnected}")?;
    agree(&pins, "9 2", "pins")
}

#[test]
fn drivers_and_unconnected_pins(rt: HostRuntime) -> Result<(), Fail> {
    let netlist = netlist_of(rt.alloc(), &sample())?;
    check_counts(rt.alloc(), &netlist)
}

/// The sinks of each net are the same from lists.
fn check_sinks(alloc: Global, netlist: &Netlist) -> Result<(), Fail> {
    let lists = netlist.pin_lists(alloc)?;
    for net in 0..netlist.counts().nets {
        let by_lists = netlist.sinks_in(alloc, &lists, NetId(net))?;
        let by_walk = netlist.sinks(alloc, NetId(net))?;
        if by_lists.as_slice() != by_walk.as_slice() {
            return Err("other sinks from lists".into());
        }
    }
    Ok(())
}

#[test]
fn sinks_from_lists_are_the_same(rt: HostRuntime) -> Result<(), Fail> {
    let netlist = netlist_of(rt.alloc(), &sample())?;
    check_sinks(rt.alloc(), &netlist)
}
