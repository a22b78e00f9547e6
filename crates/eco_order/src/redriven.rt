//! Rule 10, and the nets whose driving pins an order changes.

ghost use Rattle.std.specs.Prelude.{◌≡◌, ◌++◌, map, IfOk, OnOk, option_map};
ghost use Rattle.std.specs.List.{find, filter, flat_map};
ghost use Rattle.eco_net.specs.Listing.{netlist};
ghost use Rattle.eco_order.specs.Rules.{ends, redriven as redriven_by, is_output as is_output_dir, moves_output as moves_output_of, is_fixed as is_fixed_net, supply_driven as supply_driven_of};

use crate::lookups::{dir_of, is_fixed};
use eco_common::{Dir, Memory, Name};
use eco_net::Netlist;
use eco_order_file::{Move, Order, Rule};
use std::alloc::Global;

fn is_output(dir: Option<Dir>) -> bool
    ensures { result ≡ is_output_dir dir }
{
    match dir {
        Some(Dir::Output) => true,
        Some(Dir::Input) => false,
        Some(Dir::Inout) => false,
        None => false,
    }
}

/// Whether an OUTPUT pin is moved.
pub fn moves_output(net: &Netlist, moved: &Move) -> bool
    ensures { result ≡ moves_output_of (netlist net.now) moved.now }
{
    is_output(dir_of(net, moved.comp.bytes(), moved.pin.bytes()))
}

/// The nets whose driving pins the order changes.
pub fn redriven<'a>(alloc: Global, net: &Netlist, order: &'a Order) -> Result<Vec<&'a [u8]>, Memory>
    ensures { IfOk result (λ nets. map (λ n. n.now) nets.items ≡ redriven_by (netlist net.now) order.now) }
{
    let mut nets = Vec::new(alloc);
    for gate in order.gates.as_slice() {
        nets.push(gate.output().bytes())?;
    }
    add_ends(net, order.moves.as_slice(), &mut nets)?;
    Ok(nets)
}

/// Adds the nets that moved OUTPUT pins come from and go to.
fn add_ends<'a>(net: &Netlist, moves: &'a [Move], nets: &mut Vec<&'a [u8]>) -> Result<(), Memory>
    ensures { OnOk result (map (λ n. n.now) nets.new.items ≡ map (λ n. n.now) nets.old.items ++ flat_map ends (filter (moves_output_of (netlist net.now)) moves.now)) }
{
    for moved in moves {
        if moves_output(net, moved) {
            if let Some(from) = &moved.from_net {
                nets.push(from.bytes())?;
            }
            nets.push(moved.to_net.bytes())?;
        }
    }
    Ok(())
}

/// The first of these nets that is a supply or a tie net.
fn first_fixed<'a>(net: &Netlist, nets: &[&'a [u8]]) -> Option<&'a [u8]>
    ensures { option_map (λ n. n.now) result ≡ find (is_fixed_net (netlist net.now)) (map (λ n. n.now) nets.now) }
{
    for name in nets {
        if is_fixed(net, name) {
            return Some(*name);
        }
    }
    None
}

/// Rule 10.
pub fn supply_driven(alloc: Global, net: &Netlist, order: &Order) -> Result<Option<Rule>, Memory>
    ensures { IfOk result (λ broken. broken ≡ supply_driven_of (netlist net.now) order.now) }
{
    let nets = redriven(alloc, net, order)?;
    match first_fixed(net, &nets) {
        Some(name) => Ok(Some(Rule::SupplyDriven {
            net: Name::of(alloc, name)?,
        })),
        None => Ok(None),
    }
}
