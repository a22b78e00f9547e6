//! Netlists: what they answer of themselves, and makers that go on from them.

ghost use Rattle.std.specs.Prelude.{◌<◌, length, IfOk, IfSome};
ghost use Rattle.eco_lef.specs.Names.{HaveDistinctPins};
ghost use Rattle.eco_lef.specs.Sizes.{KeepSizes};
ghost use Rattle.eco_net.specs.declared.ids.PinRef.{PinRef};
ghost use Rattle.eco_net.specs.Listing.{IsKnownPin};

use crate::full::listed;
use crate::said::{agree, depth_said, keys_said, nets_said, observables_said, values_said};
use eco_common::Dir;
use eco_func::{Functions, read_functions};
use eco_lef::{Library, read_lef};
use eco_master_faults::MasterTable;
use eco_net::{CompId, NetId, Netlist, NetlistMaker, PinRef};
use eco_small_base::FUNCTIONS;
use std::alloc::Global;
use std::test::Fail;

/// Two gates, and a box with a pin of each direction.
const CELLS: &str = "VERSION 5.8 ;
MACRO INV PIN A DIRECTION INPUT ; END A PIN Y DIRECTION OUTPUT ; END Y END INV
MACRO NAND2
  PIN A DIRECTION INPUT ; END A PIN B DIRECTION INPUT ; END B PIN Y DIRECTION OUTPUT ; END Y
END NAND2
MACRO REG
  PIN D DIRECTION INPUT ; END D PIN Q DIRECTION OUTPUT ; END Q PIN IO DIRECTION INOUT ; END IO
END REG
END LIBRARY
";

/// The components of a design, its top pins, and its nets beside the supplies VDD and VSS.
#[derive(Clone, Copy, Drop)]
pub struct Parts(&'static str, &'static str, &'static str);

/// Nets that are driven by a top pin, a gate, a register, both of two gates, and nothing; and a gate whose output is on no
/// net.
pub fn sample() -> Parts {
    Parts(
        "- u1 INV ; - r1 REG ; - u2 INV ; - u3 INV ; - u4 INV ;",
        "- a + NET a + DIRECTION INPUT ; - y + NET y + DIRECTION OUTPUT ; - pad + NET pad + DIRECTION INOUT ;",
        "- a ( PIN a ) ( u3 A ) ( u1 A ) ; - b ; - y ( r1 D ) ( PIN y ) ( u1 Y ) ; - z ( u2 Y ) ( u3 Y ) ; \
         - q ( r1 Q ) ( u2 A ) ; - pad ( PIN pad ) ( u4 A ) ;",
    )
}

/// Two gates with a register behind them and back, and gates that read supplies and no net.
fn valued() -> Parts {
    Parts(
        "- u1 NAND2 ; - u2 INV ; - r1 REG ; - u3 NAND2 ; - u4 NAND2 ; - u5 NAND2 ;",
        "",
        "- VDD ( u3 A ) ( u4 A ) ( u5 B ) ; - VSS ( u4 Y ) ; - a ( u1 A ) ; - q ( u1 B ) ( r1 Q ) ; - n1 ( u1 Y ) ( u2 A ) ; \
         - n2 ( u2 Y ) ( r1 D ) ; - n3 ( u3 Y ) ( u4 B ) ; - n5 ( u5 A ) ; - n4 ( u5 Y ) ;",
    )
}

/// The masters of a library.
pub fn library(alloc: Global, text: &str) -> Result<Library, Fail>
    ensures pins { IfOk result HaveDistinctPins }
    ensures sizes { IfOk result KeepSizes }
{
    if 10_000 < text.len() {
        return Err("a text that is too long".into());
    }
    Ok(read_lef(alloc, text.as_bytes())?)
}

/// The text of a design of these parts.
fn text_of(alloc: Global, parts: &Parts) -> Result<String, Fail> {
    let Parts(comps, tops, nets) = parts;
    Ok(format!(in alloc;
        "UNITS DISTANCE MICRONS 1 ; COMPONENTS 1 ; {comps} END COMPONENTS PINS 1 ; {tops} END PINS SPECIALNETS 2 ; \
         - VDD + USE POWER ; - VSS + USE GROUND ; END SPECIALNETS NETS 1 ; {nets} END NETS END DESIGN"
    )?)
}

/// The netlist of a design of these masters.
pub fn listed_by(
    alloc: Global,
    text: &str,
    library: &Library,
    functions: &Functions,
) -> Result<Netlist, Fail>
    requires pins { HaveDistinctPins library.now }
    requires sizes { KeepSizes library.now }
{
    let table = MasterTable::of(alloc, library, functions)?;
    Ok(listed(alloc, text, &table)??)
}

/// The netlist of a design of the cells.
fn listed_of_cells(alloc: Global, text: &str) -> Result<Netlist, Fail> {
    let functions = read_functions(alloc, FUNCTIONS.as_bytes())?;
    let library = library(alloc, CELLS)?;
    listed_by(alloc, text, &library, &functions)
}

/// The netlist of these parts.
fn unmarked(alloc: Global, parts: &Parts) -> Result<Netlist, Fail> {
    let text = text_of(alloc, parts)?;
    listed_of_cells(alloc, text.as_str())
}

/// The net of a name.
fn find_net(maker: &NetlistMaker, name: &str) -> Result<NetId, Fail>
    ensures { IfOk result (λ net. net.0 < length maker.now.nets) }
{
    match maker.find_net(name.as_bytes()) {
        Some(net) if net.0 < maker.counts().nets => Ok(net),
        _ => Err("no such net".into()),
    }
}

/// Marks VDD and VSS as tie nets, and `SP_1` as a component elsewhere.
fn mark(alloc: Global, maker: &mut NetlistMaker) -> Result<(), Fail> {
    let high = find_net(maker, "VDD")?;
    maker.mark_tie(high);
    let low = find_net(maker, "VSS")?;
    maker.mark_tie(low);
    Ok(maker.reserve_name(alloc, b"SP_1")?)
}

/// The netlist of these parts with VDD and VSS as tie nets, where `SP_1` stands for a component elsewhere.
pub fn netlist_of(alloc: Global, parts: &Parts) -> Result<Netlist, Fail> {
    let mut maker = unmarked(alloc, parts)?.into_maker();
    mark(alloc, &mut maker)?;
    Ok(maker.finish(alloc)?)
}

const NETS: &str = "VDD supply=1 tie
VSS supply=0 tie
a PIN/a -> u1/A u3/A
b
y u1/Y -> PIN/y r1/D
z -> u2/Y u3/Y
q r1/Q -> u2/A
pad PIN/pad -> u4/A
";

/// Changes of the nets of the sample: a pin and the net that it is put on, or none where it is taken off its net; and the
/// lines that change.
struct PinMove(
    &'static str,
    &'static str,
    Option<&'static str>,
    &'static [(&'static str, &'static str)],
);

const MOVED: [PinMove; 3] = [
    PinMove(
        "r1",
        "D",
        Some("b"),
        &[("b\n", "b -> r1/D\n"), (" -> PIN/y r1/D\n", " -> PIN/y\n")],
    ),
    PinMove("u2", "Y", None, &[("z -> u2/Y u3/Y\n", "z u3/Y\n")]),
    PinMove(
        "r1",
        "IO",
        Some("q"),
        &[("q r1/Q -> u2/A\n", "q -> r1/Q r1/IO u2/A\n")],
    ),
];

/// The number of a component's pin.
fn find(maker: &NetlistMaker, comp: &[u8], pin: &[u8]) -> Option<(CompId, u32)>
    ensures { IfSome result (λ p. IsKnownPin maker.now (PinRef.Pin p.0 p.1)) }
{
    let _listing = maker.counts();
    match maker.find_comp(comp) {
        None => None,
        Some(comp) => match maker.find_pin(comp, pin) {
            None => None,
            Some(pin) => Some((comp, pin)),
        },
    }
}

/// Puts a pin on another net, or takes it off its net.
fn move_pin(maker: &mut NetlistMaker, change: &PinMove) -> Result<(), Fail> {
    let Some((comp, pin)) = find(maker, change.0.as_bytes(), change.1.as_bytes()) else {
        return Err("no such pin".into());
    };
    let Some(net) = change.2 else {
        maker.part(comp, pin);
        return Ok(());
    };
    let net = find_net(maker, net)?;
    Ok(maker.join(comp, pin, net)?)
}

/// The nets of a netlist after a change, by a maker that goes on from it.
fn moved(alloc: Global, netlist: &Netlist, change: &PinMove) -> Result<String, Fail> {
    let mut maker = NetlistMaker::of(alloc, netlist)?;
    move_pin(&mut maker, change)?;
    nets_said(alloc, &maker.finish(alloc)?)
}

/// The nets of the sample with the lines that change.
fn wanted_nets(alloc: Global, change: &PinMove) -> Result<String, Fail> {
    let mut wanted = String::from_str(alloc, NETS)?;
    for (old, new) in change.3 {
        wanted = wanted.replace(alloc, old, new)?;
    }
    Ok(wanted)
}

fn check_move(alloc: Global, netlist: &Netlist, change: &PinMove) -> Result<(), Fail> {
    let wanted = wanted_nets(alloc, change)?;
    let nets = moved(alloc, netlist, change)?;
    agree(nets.as_str(), wanted.as_str(), change.1)
}

fn check_nets(alloc: Global, netlist: &Netlist) -> Result<(), Fail> {
    agree(nets_said(alloc, netlist)?.as_str(), NETS, "sample")?;
    for change in &MOVED {
        check_move(alloc, netlist, change)?;
    }
    Ok(())
}

#[test]
fn nets_with_their_drivers_and_sinks(rt: HostRuntime) -> Result<(), Fail> {
    let netlist = netlist_of(rt.alloc(), &sample())?;
    check_nets(rt.alloc(), &netlist)
}

/// What is said of the sample.
const SAMPLE_SAID: &str =
    "8 5 3 9 depth=1 keys PIN/a b z r1/Q pad observables PIN/y PIN/pad r1/D r1/IO u2/Y u3/Y";

/// Netlists with how many nets, components, top pins and pins on nets they have, their depth, cut keys and observables.
const SAID: [(Parts, &str); 7] = [
    // no component, and no gate
    (Parts("", "", ""), "2 0 0 0 depth=0 keys observables"),
    (
        Parts("- r1 REG ;", "", "- d ( r1 D ) ; - q ( r1 Q ) ;"),
        "4 1 0 2 depth=0 keys d r1/Q observables r1/D r1/IO",
    ),
    // a chain
    (
        Parts(
            "- u3 INV ; - u2 INV ; - u1 INV ;",
            "",
            "- a ( u1 A ) ; - n1 ( u1 Y ) ( u2 A ) ; - n2 ( u2 Y ) ( u3 A ) ; - n3 ( u3 Y ) ;",
        ),
        "6 3 0 6 depth=3 keys a observables",
    ),
    // a register between two gates
    (
        Parts(
            "- u1 INV ; - r1 REG ; - u2 INV ;",
            "",
            "- a ( u1 A ) ; - n1 ( u1 Y ) ( r1 D ) ; - q ( r1 Q ) ( u2 A ) ; - n2 ( u2 Y ) ;",
        ),
        "6 3 0 6 depth=1 keys a r1/Q observables r1/D r1/IO",
    ),
    // a gate whose output is on no net
    (
        Parts(
            "- u1 INV ; - u2 INV ;",
            "",
            "- a ( u1 A ) ; - n1 ( u1 Y ) ( u2 A ) ;",
        ),
        "4 2 0 3 depth=2 keys a observables",
    ),
    // two gates on one net, which so is not computed
    (
        Parts(
            "- u1 INV ; - u2 INV ; - u3 INV ;",
            "",
            "- a ( u1 A ) ; - b ( u2 A ) ; - n1 ( u1 Y ) ( u2 Y ) ( u3 A ) ; - n2 ( u3 Y ) ;",
        ),
        "6 3 0 6 depth=1 keys a b n1 observables u1/Y u2/Y",
    ),
    // the longer of two ways
    (
        Parts(
            "- u3 NAND2 ; - u2 INV ; - u1 INV ;",
            "",
            "- a ( u1 A ) ( u3 A ) ; - n1 ( u1 Y ) ( u2 A ) ; - n2 ( u2 Y ) ( u3 B ) ; - n3 ( u3 Y ) ;",
        ),
        "6 3 0 7 depth=3 keys a observables",
    ),
];

/// How many nets, components, top pins and pins on nets a netlist has.
fn counts_said(alloc: Global, netlist: &Netlist) -> Result<String, Fail> {
    let counts = netlist.counts();
    let pins = netlist.joined_pins();
    Ok(format!(in alloc; "{} {} {} {pins}", counts.nets, counts.comps, counts.tops)?)
}

/// All these answers of a netlist.
fn said(alloc: Global, netlist: &Netlist) -> Result<String, Fail> {
    let counts = counts_said(alloc, netlist)?;
    let depth = depth_said(alloc, netlist)?;
    let keys = keys_said(alloc, netlist)?;
    let observables = observables_said(alloc, netlist)?;
    Ok(format!(in alloc; "{counts} {depth} keys{keys} observables{observables}")?)
}

fn check_said(alloc: Global, parts: &Parts, wanted: &str) -> Result<(), Fail> {
    let netlist = netlist_of(alloc, parts)?;
    agree(said(alloc, &netlist)?.as_str(), wanted, parts.2)
}

#[test]
fn counts_depths_cut_keys_and_observables(rt: HostRuntime) -> Result<(), Fail> {
    check_said(rt.alloc(), &sample(), SAMPLE_SAID)?;
    for (parts, wanted) in &SAID {
        check_said(rt.alloc(), parts, wanted)?;
    }
    Ok(())
}

/// A design whose spare `SP_1` inverts the net a for `u2` behind the net m1: its pin A is on VDD.
const INVERTED: &str = "UNITS DISTANCE MICRONS 1000 ;
COMPONENTS 3 ;
- u1 INV + PLACED ( 1000 1000 ) N ;
- u2 INV + PLACED ( 3000 1000 ) N ;
- SP_1 NAND2 + FIXED ( 2000 2000 ) N ;
END COMPONENTS
NETS 6 ;
- VDD ( SP_1 A ) + USE POWER ;
- VSS + USE GROUND ;
- a ( u1 A ) ( SP_1 B ) ;
- n1 ( u1 Y ) ;
- n2 ( u2 Y ) ;
- m1 ( SP_1 Y ) ( u2 A ) ;
END NETS
END DESIGN
";

/// The bit of a, and the values of the nets.
const INVERTED_VALUES: [(&str, &str); 2] = [
    ("0", " VDD=1 VSS=0 a=0 n1=1 n2=0 m1=1"),
    ("1", " VDD=1 VSS=0 a=1 n1=0 n2=1 m1=0"),
];

/// The cut keys, and the values of the nets for some of their bits.
fn check_values(
    alloc: Global,
    netlist: &Netlist,
    keys: &str,
    values: &[(&str, &str)],
) -> Result<(), Fail> {
    agree(keys_said(alloc, netlist)?.as_str(), keys, "keys")?;
    for (bits, wanted) in values {
        agree(values_said(alloc, netlist, bits)?.as_str(), wanted, bits)?;
    }
    Ok(())
}

/// The netlist of a design whose masters have functions.
fn listed_of_functions(alloc: Global, text: &str) -> Result<Netlist, Fail> {
    let functions = read_functions(alloc, FUNCTIONS.as_bytes())?;
    Ok(listed(alloc, text, &functions)??)
}

#[test]
fn the_values_with_an_inverter_on_a_nand(rt: HostRuntime) -> Result<(), Fail> {
    let netlist = listed_of_functions(rt.alloc(), INVERTED)?;
    check_values(rt.alloc(), &netlist, " a", &INVERTED_VALUES)
}

/// The bits of a, r1/Q and n5, and the values of the nets.
const VALUES: [(&str, &str); 4] = [
    ("000", " VDD=1 VSS=0 a=0 q=0 n1=1 n2=0 n3=1 n5=0 n4=1"),
    ("101", " VDD=1 VSS=0 a=1 q=0 n1=1 n2=0 n3=1 n5=1 n4=0"),
    ("011", " VDD=1 VSS=0 a=0 q=1 n1=1 n2=0 n3=1 n5=1 n4=0"),
    ("110", " VDD=1 VSS=0 a=1 q=1 n1=0 n2=1 n3=1 n5=0 n4=1"),
];

#[test]
fn gates_supplies_and_free_nets(rt: HostRuntime) -> Result<(), Fail> {
    let netlist = netlist_of(rt.alloc(), &valued())?;
    check_values(rt.alloc(), &netlist, " a r1/Q n5", &VALUES)
}

/// The marks of the components that are taken out of the sample, and the counts of what is left: of its pins on nets two of
/// an inverter, but one of the last, and two of the register's three.
const LEFT: [([bool; 5], &str); 4] = [
    ([false, false, false, false, false], "8 5 3 9"),
    ([true, false, false, false, false], "8 4 3 7"),
    ([false, true, false, false, true], "8 3 3 6"),
    ([true, true, true, true, true], "8 0 3 0"),
];

/// The nets of the sample without r1 and u2.
const NETS_LEFT: &str = "VDD supply=1 tie
VSS supply=0 tie
a PIN/a -> u1/A u3/A
b
y u1/Y -> PIN/y
z u3/Y
q
pad PIN/pad -> u4/A
";

/// The netlist without the components that are marked.
fn left(alloc: Global, netlist: &Netlist, marks: &[bool]) -> Result<Netlist, Fail> {
    let maker = NetlistMaker::of(alloc, netlist)?;
    if maker.counts().comps as usize != marks.len() {
        return Err("a mark for each component".into());
    }
    Ok(maker.without(alloc, marks)?.finish(alloc)?)
}

/// Whether what is left of the sample without r1 and u2 is found by name.
fn is_found(rest: &Netlist) -> bool {
    rest.find_comp(b"r1").is_none()
        && rest.find_comp(b"u3") == Some(CompId(1))
        && rest.find_net(b"pad") == Some(NetId(7))
        && rest.find_net(b"n").is_none()
        && rest.is_reserved(b"SP_1")
        && !rest.is_reserved(b"u1")
}

fn check_counts(alloc: Global, netlist: &Netlist, wanted: &str) -> Result<(), Fail> {
    agree(counts_said(alloc, netlist)?.as_str(), wanted, "counts")
}

fn check_names(alloc: Global, rest: &Netlist) -> Result<(), Fail> {
    agree(nets_said(alloc, rest)?.as_str(), NETS_LEFT, "nets")?;
    if !is_found(rest) {
        return Err("what is left is not found".into());
    }
    Ok(())
}

fn check_counts_left(
    alloc: Global,
    netlist: &Netlist,
    marks: &[bool],
    wanted: &str,
) -> Result<(), Fail> {
    let rest = left(alloc, netlist, marks)?;
    check_counts(alloc, &rest, wanted)
}

fn check_names_left(alloc: Global, netlist: &Netlist) -> Result<(), Fail> {
    let rest = left(alloc, netlist, &[false, true, true, false, false])?;
    check_names(alloc, &rest)
}

fn check_left(alloc: Global, netlist: &Netlist) -> Result<(), Fail> {
    for (marks, wanted) in &LEFT {
        check_counts_left(alloc, netlist, marks, wanted)?;
    }
    check_names_left(alloc, netlist)
}

#[test]
fn components_are_taken_out(rt: HostRuntime) -> Result<(), Fail> {
    let netlist = netlist_of(rt.alloc(), &sample())?;
    check_left(rt.alloc(), &netlist)
}

/// Pins of the sample, each with its direction, its name and its net.
const PINS: [(&str, &str, &str); 8] = [
    ("u1", "A", "Input A a"),
    ("u1", "Y", "Output Y y"),
    ("u4", "Y", "Output Y"),
    ("r1", "D", "Input D y"),
    ("r1", "Q", "Output Q q"),
    ("r1", "IO", "Inout IO"),
    ("u1", "B", "none"),
    ("SP_1", "A", "none"),
];

/// The number of a component's pin.
fn known(netlist: &Netlist, comp: &[u8], pin: &[u8]) -> Option<(CompId, u32)>
    ensures { IfSome result (λ p. IsKnownPin netlist.now (PinRef.Pin p.0 p.1)) }
{
    let _listing = netlist.counts();
    match netlist.find_comp(comp) {
        None => None,
        Some(comp) => match netlist.find_pin(comp, pin) {
            None => None,
            Some(pin) => Some((comp, pin)),
        },
    }
}

/// The net of a pin, behind a blank.
fn net_said(alloc: Global, netlist: &Netlist, pin: PinRef) -> Result<String, Fail>
    requires { IsKnownPin netlist.now pin }
{
    match netlist.net_of(pin) {
        Some(net) => Ok(format!(in alloc; " {}", str::from_utf8(netlist.net_name(net))?)?),
        None => Ok(String::new(alloc)),
    }
}

/// The name of a pin.
fn name_said(netlist: &Netlist, pin: PinRef) -> Result<&str, Fail>
    requires { IsKnownPin netlist.now pin }
{
    Ok(str::from_utf8(netlist.pin_name(pin).pin)?)
}

/// The direction of a pin.
fn dir_said(netlist: &Netlist, comp: CompId, pin: u32) -> &'static str
    requires { IsKnownPin netlist.now (PinRef.Pin comp pin) }
{
    match netlist.pin_dir(comp, pin) {
        Dir::Input => "Input",
        Dir::Output => "Output",
        Dir::Inout => "Inout",
    }
}

/// The direction of a pin, its name, and its net.
fn pin_said(alloc: Global, netlist: &Netlist, comp: &str, pin: &str) -> Result<String, Fail> {
    let Some((comp, pin)) = known(netlist, comp.as_bytes(), pin.as_bytes()) else {
        return Ok(String::from_str(alloc, "none")?);
    };
    let dir = dir_said(netlist, comp, pin);
    let name = name_said(netlist, PinRef::Pin(comp, pin))?;
    let net = net_said(alloc, netlist, PinRef::Pin(comp, pin))?;
    Ok(format!(in alloc; "{dir} {name}{net}")?)
}

fn check_pins(alloc: Global, netlist: &Netlist) -> Result<(), Fail> {
    for (comp, pin, wanted) in &PINS {
        agree(pin_said(alloc, netlist, comp, pin)?.as_str(), wanted, pin)?;
    }
    Ok(())
}

#[test]
fn pins_by_name(rt: HostRuntime) -> Result<(), Fail> {
    let netlist = netlist_of(rt.alloc(), &sample())?;
    check_pins(rt.alloc(), &netlist)
}
