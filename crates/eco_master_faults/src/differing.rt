//! The pins of a master that aren't as the functions file lists them.

ghost use Rattle.std.specs.Prelude.{◌≡◌, [], ◌∷◌, map, Some, None, option_copied};
ghost use Rattle.std.specs.Ordering.{is_lt};
ghost use Rattle.eco_common.specs.declared.geometry.Dir.TheVariants.{Input, Output};
ghost use Rattle.eco_net.specs.Netlist.{name_cmp};
ghost use Rattle.eco_master_faults.specs.Differing.{IsLeast, PinDiffers};
ghost use Rattle.eco_master_faults.specs.Odd.{is_odd, odd_pins, odd_names, Lessens};

use crate::pins::{has_pin, lists};
use eco_common::{Dir, Name};
use eco_func::MasterFn;
use eco_lef::{Master, MasterPin};

/// Whether a name stands before another by bytes.
fn is_before(name: &Name, other: &Name) -> bool
    ensures { result ≡ is_lt (name_cmp name.now other.now) }
{
    name.bytes().cmp(&other.bytes()).is_lt()
}

/// The least of two names by bytes.
fn lesser<'a>(least: &'a Name, name: &'a Name) -> &'a Name
    ensures { Lessens (Some least.now) (name.now ∷ []) (Some result.now) }
{
    if is_before(name, least) { name } else { least }
}

/// The least of the names so far, with one more.
fn less<'a>(least: Option<&'a Name>, name: &'a Name) -> Option<&'a Name>
    ensures { Lessens (option_copied least.entry) (name.now ∷ []) (option_copied result) }
{
    match least {
        None => Some(name),
        Some(least) => Some(lesser(least, name)),
    }
}

/// Whether a pin of the library isn't supply, and the functions file doesn't list it.
fn is_unlisted(function: &MasterFn, pin: &MasterPin) -> bool
    ensures { result ≡ is_odd function.now pin.now }
{
    !pin.supply && !lists(function, &pin.name, pin.dir)
}

/// The least so far, with a pin of the library, unless the functions file lists it.
fn less_of_pin<'a>(
    function: &MasterFn,
    pin: &'a MasterPin,
    least: Option<&'a Name>,
) -> Option<&'a Name>
    ensures { Lessens (option_copied least.entry) (odd_pins function.now (pin.now ∷ [])) (option_copied result) }
{
    if is_unlisted(function, pin) {
        less(least, &pin.name)
    } else {
        least
    }
}

/// The least so far, with a listed pin, unless the library has it.
fn less_of_name<'a>(
    master: &Master,
    name: &'a Name,
    dir: Dir,
    least: Option<&'a Name>,
) -> Option<&'a Name>
    ensures { Lessens (option_copied least.entry) (odd_names master.now dir (name.now ∷ [])) (option_copied result) }
{
    if has_pin(master, name, dir) {
        least
    } else {
        less(least, name)
    }
}

/// The least of the library's pins that the functions file doesn't list.
fn least_pin<'a>(master: &'a Master, function: &MasterFn) -> Option<&'a Name>
    ensures { Lessens None (odd_pins function.now master.now.pins) (option_copied result) }
{
    let pins = master.pins.as_slice();
    let mut least = None;
    for pin in pins {
        least = less_of_pin(function, pin, least);
    }
    least
}

/// The least so far, with the inputs that the library hasn't.
fn least_input<'a>(
    master: &Master,
    function: &'a MasterFn,
    mut least: Option<&'a Name>,
) -> Option<&'a Name>
    ensures { Lessens (option_copied least.entry) (odd_names master.now Input function.now.inputs) (option_copied result) }
{
    let inputs = function.inputs();
    for input in inputs {
        least = less_of_name(master, input, Dir::Input, least);
    }
    least
}

/// The least so far, with the outputs that the library hasn't.
fn least_output<'a>(
    master: &Master,
    function: &'a MasterFn,
    mut least: Option<&'a Name>,
) -> Option<&'a Name>
    ensures { Lessens (option_copied least.entry) (odd_names master.now Output (map (λ o. o.pin) function.now.outputs)) (option_copied result) }
{
    let outputs = function.outputs();
    for output in outputs {
        least = less_of_name(master, &output.pin, Dir::Output, least);
    }
    least
}

/// The least pin by bytes that differs between the library and the functions file.
pub fn least_differing<'a>(master: &'a Master, function: &'a MasterFn) -> Option<&'a Name>
    ensures { IsLeast (PinDiffers master.now function.now) (option_copied result) }
{
    let least = least_pin(master, function);
    let least = least_input(master, function, least);
    least_output(master, function, least)
}
