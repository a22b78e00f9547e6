//! New nets and moved pins put into a netlist.

ghost use Rattle.std.specs.Prelude.{◌≡◌, ◌≤◌, ◌+◌, ℕ, List, length, None, IsOk, OnOk};
ghost use Rattle.std.specs.List.{Contains, IsDistinct};
ghost use Rattle.std.specs.FinMap.{get};
ghost use Rattle.std.specs.Str.{bytes_eq};
ghost use Rattle.eco_net.specs.Listing.{netlist};
ghost use Rattle.eco_net.specs.Netlist.{Netlist as NamedNetlist, CompPin, IsNet};
ghost use Rattle.eco_net.specs.Changes.{with_pin_on};
ghost use Rattle.eco_net.specs.Joints.{with_nets};
ghost use Rattle.eco_order.specs.Inserting.{IsPinOf, CanMoveAll, with_moved};

use eco_common::{MAX_LISTED_NETS, Memory, Name};
use eco_net::NetlistMaker;
use eco_order_file::Move;
use std::alloc::Global;

/// Adds an order's new nets.
pub fn add_nets(alloc: Global, maker: &mut NetlistMaker, nets: &[Name]) -> Result<(), Memory>
    requires distinct { IsDistinct bytes_eq nets.now }
    requires new { (n : List ℕ) → Contains nets.now n → get (netlist maker.old).nets n ≡ None }
    requires few { length maker.old.nets + length nets.now ≤ MAX_LISTED_NETS }
    ensures named { OnOk result (netlist maker.new ≡ record (netlist maker.old) { nets = with_nets (netlist maker.old).nets nets.now }) }
    ensures comps { OnOk result (maker.new.comps ≡ maker.old.comps) }
{
    for place in (0..nets.len()).rev() {
        maker.add_net(alloc, nets[place].bytes(), None)?;
    }
    Ok(())
}

/// Puts a component's pin on a net.
pub fn put_pin(maker: &mut NetlistMaker, comp: &[u8], pin: &[u8], net: &[u8]) -> Result<(), Memory>
    requires pin { IsPinOf (netlist maker.old) comp.now pin.now }
    requires net { IsNet (netlist maker.old) net.now }
    ensures named { OnOk result (netlist maker.new ≡ with_pin_on (netlist maker.old) (CompPin comp.now pin.now) net.now) }
    ensures comps { OnOk result (length maker.new.comps ≡ length maker.old.comps) }
{
    maker.facts();
    let Some(net) = maker.find_net(net) else {
        unreachable!()
    };
    let Some(comp) = maker.find_comp(comp) else {
        unreachable!()
    };
    let Some(pin) = maker.find_pin(comp, pin) else {
        unreachable!()
    };
    maker.join(comp, pin, net)
}

/// Makes an order's moves.
pub fn make_moves(maker: &mut NetlistMaker, moves: &[Move]) -> Result<(), Memory>
    requires { CanMoveAll (netlist maker.old) moves.now }
    ensures named { OnOk result (netlist maker.new ≡ with_moved (netlist maker.old) moves.now) }
    ensures comps { OnOk result (length maker.new.comps ≡ length maker.old.comps) }
{
    for place in (0..moves.len()).rev() {
        let moved = &moves[place];
        put_pin(
            maker,
            moved.comp.bytes(),
            moved.pin.bytes(),
            moved.to_net.bytes(),
        )?;
    }
    Ok(())
}
