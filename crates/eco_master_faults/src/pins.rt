//! Pins of masters, in the library and in the functions file.

ghost use Rattle.std.specs.Prelude.{◌≡◌};
ghost use Rattle.std.specs.List.{list_any};
ghost use Rattle.std.specs.Str.{bytes_eq};
ghost use Rattle.eco_master_faults.specs.Odd.{same_dir as equal_dirs, is_signal as signal, has_pin as pin_in, lists as listed};

use eco_common::{Dir, Name};
use eco_func::MasterFn;
use eco_lef::{Master, MasterPin};

fn same_dir(dir: Dir, other: Dir) -> bool
    ensures { result ≡ equal_dirs dir other }
{
    match (dir, other) {
        (Dir::Input, Dir::Input) | (Dir::Output, Dir::Output) | (Dir::Inout, Dir::Inout) => true,
        _ => false,
    }
}

/// Whether a pin isn't supply and has this name and this direction.
fn is_signal(pin: &MasterPin, name: &Name, dir: Dir) -> bool
    ensures { result ≡ signal name.now dir pin.now }
{
    !pin.supply && same_dir(pin.dir, dir) && pin.name.is(name.bytes())
}

/// Whether the library has a pin of this name and this direction for the master.
pub fn has_pin(master: &Master, name: &Name, dir: Dir) -> bool
    ensures { result ≡ pin_in master.now name.now dir }
{
    master
        .pins
        .as_slice()
        .iter()
        .any(|pin| is_signal(pin, name, dir))
}

/// Whether a name is one of the inputs.
fn is_input(function: &MasterFn, name: &Name) -> bool
    ensures { result ≡ list_any (bytes_eq name.now) function.now.inputs }
{
    function.inputs().iter().any(|input| name.is(input.bytes()))
}

/// Whether a name is one of the outputs.
fn is_output(function: &MasterFn, name: &Name) -> bool
    ensures { result ≡ list_any (λ o. bytes_eq name.now o.pin) function.now.outputs }
{
    function
        .outputs()
        .iter()
        .any(|output| name.is(output.pin.bytes()))
}

/// Whether the functions file lists a pin of this name with this direction for the master.
pub fn lists(function: &MasterFn, name: &Name, dir: Dir) -> bool
    ensures { result ≡ listed function.now name.now dir }
{
    match dir {
        Dir::Input => is_input(function, name),
        Dir::Output => is_output(function, name),
        Dir::Inout => false,
    }
}
