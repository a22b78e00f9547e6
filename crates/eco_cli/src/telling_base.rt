//! What is printed of texts that are refused.

ghost use Rattle.std.specs.Prelude.{◌≡◌, codes, decimal, ◌++◌, [], ◌∷◌};
ghost use Rattle.std.specs.List.{flat_map};
ghost use Rattle.eco_text.specs.Writing.{Writes};
ghost use Rattle.eco_cli.specs.Telling.{section_words, quote_place as place_of_quote, def_text, lef_text, func_text, names_text, base_text};

use crate::line::{print_number, print_parts, print_place, print_three, print_two};
use eco_base::BaseFault;
use eco_common::{Failed, Name};
use eco_def::{DefFault, Section};
use eco_func::FuncFault;
use eco_lef::LefFault;
use eco_net::Names;
use eco_text::{Sink, TextFault, write_piece, write_pieces};
use itoa::Buffer;

fn section_word(section: Section) -> &'static [u8]
    ensures { result.now ≡ section_words section }
{
    match section {
        Section::Units => b"UNITS",
        Section::Components => b"COMPONENTS",
        Section::Nets => b"NETS",
    }
}

/// Where the quoted word begins that doesn't end.
fn quote_place(fault: TextFault) -> u32
    ensures { result ≡ place_of_quote fault }
{
    match fault {
        TextFault::OpenQuote { place } => place,
    }
}

/// The line of a DEF's fault, behind what it begins with.
pub fn print_def<O: Sink>(head: &[u8], fault: DefFault, out: &mut O) -> Result<(), Failed>
    ensures { Writes O.taken O.faults out.old out.new result ((head.now ++ def_text fault) ++ 10 ∷ []) }
{
    match fault {
        DefFault::Text(fault) => {
            print_place(head, b"Text OpenQuote place=", quote_place(fault), out)
        }
        DefFault::UnknownHeading { place } => {
            print_place(head, b"UnknownHeading place=", place, out)
        }
        DefFault::Unended { place } => print_place(head, b"Unended place=", place, out),
        DefFault::BadStatement { place } => print_place(head, b"BadStatement place=", place, out),
        DefFault::TwiceNamed { place } => print_place(head, b"TwiceNamed place=", place, out),
        DefFault::MustJoin { place } => print_place(head, b"MustJoin place=", place, out),
        DefFault::Limit { place } => print_place(head, b"Limit place=", place, out),
        DefFault::Missing { which } => {
            print_parts(head, b"Missing which=", section_word(which), out)
        }
        DefFault::Memory => print_parts(head, b"memory", b"", out),
    }
}

/// The line of a LEF's fault.
fn print_lef<O: Sink>(fault: &LefFault, out: &mut O) -> Result<(), Failed>
    ensures { Writes O.taken O.faults out.old out.new result ((codes "eco: base Lef " ++ lef_text fault.now) ++ 10 ∷ []) }
{
    let head = b"eco: base Lef ";
    match fault {
        LefFault::Text(fault) => {
            print_place(head, b"Text OpenQuote place=", quote_place(*fault), out)
        }
        LefFault::Unended { name } => print_parts(head, b"Unended name=", name.bytes(), out),
        LefFault::TwiceNamed { place } => print_place(head, b"TwiceNamed place=", *place, out),
        LefFault::TooManyMasters { place } => {
            print_place(head, b"TooManyMasters place=", *place, out)
        }
        LefFault::ArrayBlock { place } => print_place(head, b"ArrayBlock place=", *place, out),
        LefFault::BadStatement { place } => print_place(head, b"BadStatement place=", *place, out),
        LefFault::Memory => print_parts(head, b"memory", b"", out),
    }
}

/// The line of a bad expression, with its place.
fn print_expression<O: Sink>(
    master: &Name,
    output: &Name,
    place: u32,
    out: &mut O,
) -> Result<(), Failed>
    ensures { Writes O.taken O.faults out.old out.new result ((codes "eco: base Func BadExpression master=" ++ (master.now ++ (codes " output=" ++ (output.now ++ (codes " place=" ++ decimal place))))) ++ 10 ∷ []) }
{
    let mut buffer = Buffer::new();
    let digits = buffer.format(place);
    let head = b"eco: base Func BadExpression master=";
    let (master, output) = (master.bytes(), output.bytes());
    print_three(
        head,
        master,
        b" output=",
        output,
        b" place=",
        digits.as_bytes(),
        out,
    )
}

/// The line of a name that is no input, in an expression.
fn print_input<O: Sink>(
    master: &Name,
    output: &Name,
    input: &Name,
    out: &mut O,
) -> Result<(), Failed>
    ensures { Writes O.taken O.faults out.old out.new result ((codes "eco: base Func UnknownInput master=" ++ (master.now ++ (codes " output=" ++ (output.now ++ (codes " input=" ++ input.now))))) ++ 10 ∷ []) }
{
    let head = b"eco: base Func UnknownInput master=";
    let (master, output, input) = (master.bytes(), output.bytes(), input.bytes());
    print_three(head, master, b" output=", output, b" input=", input, out)
}

/// The line of a functions file's fault.
fn print_func<O: Sink>(fault: &FuncFault, out: &mut O) -> Result<(), Failed>
    ensures { Writes O.taken O.faults out.old out.new result ((codes "eco: base Func " ++ func_text fault.now) ++ 10 ∷ []) }
{
    let head = b"eco: base Func ";
    match fault {
        FuncFault::BadToml => print_parts(head, b"BadToml", b"", out),
        FuncFault::BadField { master, field } => {
            let head = b"eco: base Func BadField master=";
            print_two(head, master.bytes(), b" field=", field.bytes(), out)
        }
        FuncFault::TooManyInputs { master } => {
            print_parts(head, b"TooManyInputs master=", master.bytes(), out)
        }
        FuncFault::BadTable { master, output } => {
            let head = b"eco: base Func BadTable master=";
            print_two(head, master.bytes(), b" output=", output.bytes(), out)
        }
        FuncFault::BadExpression {
            master,
            output,
            place,
        } => print_expression(master, output, *place, out),
        FuncFault::UnknownInput {
            master,
            output,
            input,
        } => print_input(master, output, input, out),
        FuncFault::TooManyMasters { count } => {
            print_number(b"eco: base Func TooManyMasters count=", *count as u64, out)
        }
        FuncFault::Memory => print_parts(head, b"memory", b"", out),
    }
}

/// The line of a joint that names no pin.
fn print_joint<O: Sink>(net: &Name, place: u32, out: &mut O) -> Result<(), Failed>
    ensures { Writes O.taken O.faults out.old out.new result ((codes "eco: base UnknownPin net=" ++ (net.now ++ (codes " place=" ++ decimal place))) ++ 10 ∷ []) }
{
    let mut buffer = Buffer::new();
    let digits = buffer.format(place);
    let head = b"eco: base UnknownPin net=";
    print_two(head, net.bytes(), b" place=", digits.as_bytes(), out)
}

/// The line of a pin on two nets.
fn print_pin<O: Sink>(pin: &Name, first: &Name, second: &Name, out: &mut O) -> Result<(), Failed>
    ensures { Writes O.taken O.faults out.old out.new result ((codes "eco: base PinNetDiffers pin=" ++ (pin.now ++ (codes " first=" ++ (first.now ++ (codes " second=" ++ second.now))))) ++ 10 ∷ []) }
{
    let head = b"eco: base PinNetDiffers pin=";
    let (pin, first, second) = (pin.bytes(), first.bytes(), second.bytes());
    print_three(head, pin, b" first=", first, b" second=", second, out)
}

/// Names, each behind a comma.
fn print_behind<O: Sink>(names: &[Name], out: &mut O) -> Result<(), Failed>
    ensures { Writes O.taken O.faults out.old out.new result (flat_map (λ n. 44 ∷ n) names.now) }
{
    for name in names {
        write_pieces(out, &[b",", name.bytes()])?;
    }
    Ok(())
}

/// Names with commas between them.
fn print_names<O: Sink>(names: &[Name], out: &mut O) -> Result<(), Failed>
    ensures { Writes O.taken O.faults out.old out.new result (names_text names.now) }
{
    match names {
        [] => Ok(()),
        [first, rest @ ..] => {
            write_piece(first.bytes(), out)?;
            print_behind(rest, out)
        }
    }
}

/// The line of a loop.
fn print_loop<O: Sink>(nets: &Names, out: &mut O) -> Result<(), Failed>
    ensures { Writes O.taken O.faults out.old out.new result ((codes "eco: base Loop nets=" ++ names_text nets.now) ++ 10 ∷ []) }
{
    write_piece(b"eco: base Loop nets=", out)?;
    print_names(nets.as_slice(), out)?;
    write_piece(b"\n", out)
}

/// The line of a fault of one name.
fn print_name<O: Sink>(head: &[u8], name: &Name, out: &mut O) -> Result<(), Failed>
    ensures { Writes O.taken O.faults out.old out.new result ((head.now ++ name.now) ++ 10 ∷ []) }
{
    write_pieces(out, &[head, name.bytes(), b"\n"])
}

/// The line of texts that are those of no base.
pub fn print_base<O: Sink>(fault: &BaseFault, out: &mut O) -> Result<(), Failed>
    ensures { Writes O.taken O.faults out.old out.new result (base_text fault.now ++ 10 ∷ []) }
{
    match fault {
        BaseFault::Lef(fault) => print_lef(fault, out),
        BaseFault::Def(fault) => print_def(b"eco: base Def ", *fault, out),
        BaseFault::Func(fault) => print_func(fault, out),
        BaseFault::Desk { field } => print_name(b"eco: base Desk field=", field, out),
        BaseFault::UnknownMaster { comp } => {
            print_name(b"eco: base UnknownMaster comp=", comp, out)
        }
        BaseFault::FunctionPins { master, pin } => {
            let head = b"eco: base FunctionPins master=";
            print_two(head, master.bytes(), b" pin=", pin.bytes(), out)
        }
        BaseFault::UnknownPin { net, place } => print_joint(net, *place, out),
        BaseFault::PinNetDiffers { pin, first, second } => print_pin(pin, first, second, out),
        BaseFault::PatternOnSignal { net, pin } => {
            let head = b"eco: base PatternOnSignal net=";
            print_two(head, net.bytes(), b" pin=", pin.bytes(), out)
        }
        BaseFault::SupplyDiffers { net } => {
            print_name(b"eco: base SupplyDiffers net=", net, out)
        }
        BaseFault::TieNotConstant { net } => {
            print_name(b"eco: base TieNotConstant net=", net, out)
        }
        BaseFault::TooMuchStock { count } => {
            print_number(b"eco: base TooMuchStock count=", *count as u64, out)
        }
        BaseFault::Loop { nets } => print_loop(nets, out),
        BaseFault::Memory => write_piece(b"eco: memory\n", out),
    }
}
