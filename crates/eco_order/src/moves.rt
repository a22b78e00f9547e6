//! The rules 7 to 9: which pins an order may move.

ghost use Rattle.std.specs.Prelude.{◌≡◌, not, IfOk, option_copied};
ghost use Rattle.std.specs.List.{find};
ghost use Rattle.std.specs.Str.{bytes_eq};
ghost use Rattle.eco_net.specs.Listing.{netlist};
ghost use Rattle.eco_order.specs.Rules.{is_stock as is_stock_move, can_move as can_move_pin, is_from as is_from_net, is_one_way as is_one_way_dir, is_same as is_same_net, present_net as present_net_of, unknown_pin as unknown_pin_of, wrong_from as wrong_from_of, stock_pin as stock_pin_of};

use crate::lookups::{dir_of, present_net};
use eco_common::{Dir, Memory, Name};
use eco_net::Netlist;
use eco_order_file::{Move, Order, Rule};
use std::alloc::Global;

fn is_stock(net: &Netlist, moved: &Move) -> bool
    ensures { result ≡ is_stock_move (netlist net.now) moved.now }
{
    net.is_reserved(moved.comp.bytes())
}

fn is_one_way(dir: Option<Dir>) -> bool
    ensures { result ≡ is_one_way_dir dir }
{
    match dir {
        Some(Dir::Input) => true,
        Some(Dir::Output) => true,
        Some(Dir::Inout) => false,
        None => false,
    }
}

fn can_move(net: &Netlist, moved: &Move) -> bool
    ensures { result ≡ can_move_pin (netlist net.now) moved.now }
{
    is_stock(net, moved) || is_one_way(dir_of(net, moved.comp.bytes(), moved.pin.bytes()))
}

fn first_unknown<'a>(net: &Netlist, moves: &'a [Move]) -> Option<&'a Move>
    ensures { option_copied result ≡ find (λ m. not (can_move_pin (netlist net.now) m)) moves.now }
{
    for moved in moves {
        if !can_move(net, moved) {
            return Some(moved);
        }
    }
    None
}

/// Rule 7.
pub fn unknown_pin(alloc: Global, net: &Netlist, order: &Order) -> Result<Option<Rule>, Memory>
    ensures { IfOk result (λ broken. broken ≡ unknown_pin_of (netlist net.now) order.now) }
{
    match first_unknown(net, order.moves.as_slice()) {
        Some(moved) => Ok(Some(Rule::UnknownPin {
            comp: moved.comp.copy(alloc)?,
            pin: moved.pin.copy(alloc)?,
        })),
        None => Ok(None),
    }
}

fn is_same(present: Option<&[u8]>, given: &Option<Name>) -> bool
    ensures { result ≡ is_same_net (option_copied present.entry) given.now }
{
    match present {
        Some(present) => match given {
            Some(given) => present == given.bytes(),
            None => false,
        },
        None => match given {
            Some(_) => false,
            None => true,
        },
    }
}

fn is_from(net: &Netlist, moved: &Move) -> bool
    ensures { result ≡ is_from_net (netlist net.now) moved.now }
{
    is_stock(net, moved)
        || is_same(
            present_net(net, moved.comp.bytes(), moved.pin.bytes()),
            &moved.from_net,
        )
}

fn first_elsewhere<'a>(net: &Netlist, moves: &'a [Move]) -> Option<&'a Move>
    ensures { option_copied result ≡ find (λ m. not (is_from_net (netlist net.now) m)) moves.now }
{
    for moved in moves {
        if !is_from(net, moved) {
            return Some(moved);
        }
    }
    None
}

/// The name of the net that a moved pin is on.
fn present_name(alloc: Global, net: &Netlist, moved: &Move) -> Result<Option<Name>, Memory>
    ensures { IfOk result (λ n. n ≡ present_net_of (netlist net.now) moved.now) }
{
    match present_net(net, moved.comp.bytes(), moved.pin.bytes()) {
        Some(name) => Ok(Some(Name::of(alloc, name)?)),
        None => Ok(None),
    }
}

/// Rule 8.
pub fn wrong_from(alloc: Global, net: &Netlist, order: &Order) -> Result<Option<Rule>, Memory>
    ensures { IfOk result (λ broken. broken ≡ wrong_from_of (netlist net.now) order.now) }
{
    match first_elsewhere(net, order.moves.as_slice()) {
        Some(moved) => Ok(Some(Rule::WrongFrom {
            comp: moved.comp.copy(alloc)?,
            pin: moved.pin.copy(alloc)?,
            net: present_name(alloc, net, moved)?,
        })),
        None => Ok(None),
    }
}

fn first_stock<'a>(net: &Netlist, moves: &'a [Move]) -> Option<&'a Move>
    ensures { option_copied result ≡ find (is_stock_move (netlist net.now)) moves.now }
{
    for moved in moves {
        if is_stock(net, moved) {
            return Some(moved);
        }
    }
    None
}

/// Rule 9.
pub fn stock_pin(alloc: Global, net: &Netlist, order: &Order) -> Result<Option<Rule>, Memory>
    ensures { IfOk result (λ broken. broken ≡ stock_pin_of (netlist net.now) order.now) }
{
    match first_stock(net, order.moves.as_slice()) {
        Some(moved) => Ok(Some(Rule::StockPin {
            comp: moved.comp.copy(alloc)?,
            pin: moved.pin.copy(alloc)?,
        })),
        None => Ok(None),
    }
}
