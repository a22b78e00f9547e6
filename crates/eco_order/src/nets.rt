//! The rules 6 and 11: which nets an order may name, and which new ones it may have.

ghost use Rattle.std.specs.Prelude.{◌≡◌, map, not, IfOk, option_copied};
ghost use Rattle.std.specs.List.{find, flat_map};
ghost use Rattle.std.specs.FinMap.{contains_key};
ghost use Rattle.eco_common.specs.NameBytes.{is_among as is_among_names};
ghost use Rattle.eco_net.specs.Listing.{netlist};
ghost use Rattle.eco_order.specs.Rules.{is_known as is_known_net, gate_nets, named_nets, unknown_net as unknown_net_of, net_name_taken as net_name_taken_of};

use crate::lookups::has_net;
use eco_common::{Memory, Name};
use eco_net::Netlist;
use eco_order_file::{Gate, Move, Order, Rule};
use std::alloc::Global;

fn is_among(names: &[Name], name: &[u8]) -> bool
    ensures { result ≡ is_among_names names.now name.now }
{
    names.iter().any(|one| one.is(name))
}

/// Whether a net is in the netlist or among the new ones.
fn is_known(net: &Netlist, new: &[Name], name: &[u8]) -> bool
    ensures { result ≡ is_known_net (netlist net.now) new.now name.now }
{
    has_net(net, name) || is_among(new, name)
}

fn unknown_input<'a>(net: &Netlist, new: &[Name], inputs: &'a [Name]) -> Option<&'a Name>
    ensures { option_copied result ≡ find (λ n. not (is_known_net (netlist net.now) new.now n)) inputs.now }
{
    for name in inputs {
        if !is_known(net, new, name.bytes()) {
            return Some(name);
        }
    }
    None
}

/// The first unknown net of a gate.
fn unknown_of_gate<'a>(net: &Netlist, new: &[Name], gate: &'a Gate) -> Option<&'a Name>
    ensures { option_copied result ≡ find (λ n. not (is_known_net (netlist net.now) new.now n)) (gate_nets gate.now) }
{
    if let Some(name) = unknown_input(net, new, gate.inputs()) {
        return Some(name);
    }
    if !is_known(net, new, gate.output().bytes()) {
        return Some(gate.output());
    }
    None
}

fn unknown_of_gates<'a>(net: &Netlist, new: &[Name], gates: &'a [Gate]) -> Option<&'a Name>
    ensures { option_copied result ≡ find (λ n. not (is_known_net (netlist net.now) new.now n)) (flat_map gate_nets gates.now) }
{
    for gate in gates {
        if let Some(name) = unknown_of_gate(net, new, gate) {
            return Some(name);
        }
    }
    None
}

fn unknown_of_moves<'a>(net: &Netlist, new: &[Name], moves: &'a [Move]) -> Option<&'a Name>
    ensures { option_copied result ≡ find (λ n. not (is_known_net (netlist net.now) new.now n)) (map (λ m. m.to) moves.now) }
{
    for moved in moves {
        if !is_known(net, new, moved.to_net.bytes()) {
            return Some(&moved.to_net);
        }
    }
    None
}

/// The first net that the order names and that is neither in the netlist nor among the new ones.
fn first_unknown<'a>(net: &Netlist, order: &'a Order) -> Option<&'a Name>
    ensures { option_copied result ≡ find (λ n. not (is_known_net (netlist net.now) order.now.nets n)) (named_nets order.now) }
{
    if let Some(name) = unknown_of_gates(net, order.nets.as_slice(), order.gates.as_slice()) {
        return Some(name);
    }
    unknown_of_moves(net, order.nets.as_slice(), order.moves.as_slice())
}

/// Rule 6.
pub fn unknown_net(alloc: Global, net: &Netlist, order: &Order) -> Result<Option<Rule>, Memory>
    ensures { IfOk result (λ broken. broken ≡ unknown_net_of (netlist net.now) order.now) }
{
    match first_unknown(net, order) {
        Some(name) => Ok(Some(Rule::UnknownNet {
            net: name.copy(alloc)?,
        })),
        None => Ok(None),
    }
}

/// The first of these nets that the netlist has.
fn first_taken<'a>(net: &Netlist, nets: &'a [Name]) -> Option<&'a Name>
    ensures { option_copied result ≡ find (contains_key (netlist net.now).nets) nets.now }
{
    for name in nets {
        if has_net(net, name.bytes()) {
            return Some(name);
        }
    }
    None
}

/// Rule 11.
pub fn net_name_taken(alloc: Global, net: &Netlist, order: &Order) -> Result<Option<Rule>, Memory>
    ensures { IfOk result (λ broken. broken ≡ net_name_taken_of (netlist net.now) order.now) }
{
    match first_taken(net, order.nets.as_slice()) {
        Some(name) => Ok(Some(Rule::NetNameTaken {
            net: name.copy(alloc)?,
        })),
        None => Ok(None),
    }
}
