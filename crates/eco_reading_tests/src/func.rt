//! Functions files, tables and masters.

use crate::line::{push_bytes, repeated};
use eco_common::{Memory, Name};
use eco_func::{MasterFn, OutputFn, Table, read_functions, read_table};
use std::alloc::Global;
use std::test::Fail;

/// Whether a table may have these inputs and bits.
fn is_table(inputs: u8, bits: u64) -> bool {
    Table::new(inputs, bits).is_some()
}

/// Inputs and bits, and whether no bit stands past the last row.
const TABLES: [(u8, u64, bool); 8] = [
    (0, 1, true),
    (0, 2, false),
    (1, 3, true),
    (1, 4, false),
    (5, 0xffff_ffff, true),
    (5, 0x1_0000_0000, false),
    (6, u64::MAX, true),
    (7, 0, false),
];

#[test]
fn tables_have_no_bit_past_the_last_row(rt: HostRuntime) -> Result<(), Fail> {
    for (inputs, bits, fits) in TABLES {
        assert_eq!(rt; is_table(inputs, bits), fits, "{inputs} {bits}");
    }
    Ok(())
}

/// The table of two inputs that a text gives.
fn table_of_two(text: &str) -> Result<Table, Fail> {
    Ok(read_table(2, text.as_bytes()).ok_or("no table")?)
}

/// The value of a table where its two inputs have these bits, by their list and by their row.
fn values(table: &Table, first: bool, second: bool) -> Option<(bool, bool)> {
    if table.inputs() != 2 {
        return None;
    }
    let row = u8::from(first) + 2 * u8::from(second);
    Some((table.look(&[first, second]), table.at(row)))
}

#[test]
fn rows_of_a_table(rt: HostRuntime) -> Result<(), Fail> {
    // A and not B
    let table = table_of_two("0100")?;
    for (first, second) in [(false, false), (true, false), (false, true), (true, true)] {
        let value = first && !second;
        assert_eq!(rt; values(&table, first, second), Some((value, value)));
    }
    Ok(())
}

/// Puts the inputs of a master behind a line.
fn push_inputs(line: &mut String, master: &MasterFn) -> Result<(), Fail> {
    for input in master.inputs() {
        push_bytes(line, input.bytes())?;
        line.push_str(" ")?;
    }
    Ok(())
}

/// Puts the outputs of a master behind a line, each with the bits of its table.
fn push_outputs(line: &mut String, master: &MasterFn) -> Result<(), Fail> {
    line.push_str(">")?;
    for output in master.outputs() {
        line.push_str(" ")?;
        push_bytes(line, output.pin.bytes())?;
        write!(line, "={}", output.table.bits())?;
    }
    Ok(())
}

/// The inputs and outputs of a functions file's master, or the file's fault.
fn told(alloc: Global, text: &str, master: &str) -> Result<String, Fail> {
    let mut line = String::new(alloc);
    match read_functions(alloc, text.as_bytes()) {
        Ok(functions) => match functions.find(master.as_bytes()) {
            Some(master) => {
                push_inputs(&mut line, master)?;
                push_outputs(&mut line, master)?;
            }
            None => line.push_str("no such master")?,
        },
        Err(fault) => write!(line, "{fault}")?,
    }
    Ok(line)
}

const LIBRARY: &str =
    "[NAND2]\ninputs = [\"A\", \"B\"]\noutputs = { Y = \"1110\" }\n\n[INV]\ninputs = [\"A\"]\noutputs = { Y = \"10\" }\n\n[TIEH]\ninputs = []\noutputs = { Y = \"1\" }\n\n[HA]\ninputs = [\"A\", \"B\"]\noutputs = { S = \"0110\", C = \"0001\" }\n";

/// Names, and the masters that they have in the library.
const MASTERS: [(&str, &str); 6] = [
    ("NAND2", "A B > Y=7"),
    ("INV", "A > Y=1"),
    ("TIEH", "> Y=1"),
    ("HA", "A B > C=8 S=6"),
    ("NAND3", "no such master"),
    ("", "no such master"),
];

#[test]
fn functions_of_a_small_library(rt: HostRuntime) -> Result<(), Fail> {
    for (name, wanted) in MASTERS {
        assert_eq!(rt; told(rt.alloc(), LIBRARY, name)?.as_str(), wanted, "{name}");
    }
    Ok(())
}

/// Texts, and the master `A` of each, or the text's first fault.
const FIRST_FAULTS: [(&str, &str); 26] = [
    ("", "no such master"),
    ("# no masters\n", "no such master"),
    ("[A]\ninputs = []\noutputs = { Y = \"0\" }", "> Y=0"),
    ("[A", "BadToml"),
    ("[A]\n[A]\n", "BadToml"),
    ("A = 1", "BadField master=A field=inputs"),
    ("[X]", "BadField master=X field=inputs"),
    (
        "[A]\noutputs = { Y = \"0\" }",
        "BadField master=A field=inputs",
    ),
    ("[A]\ninputs = []", "BadField master=A field=outputs"),
    (
        "[A]\ninputs = []\noutputs = { Y = \"0\" }\nmore = 1",
        "BadField master=A field=more",
    ),
    (
        "[A]\ninputs = []\noutputs = { Y = \"0\" }\nz = 1\nb = 1",
        "BadField master=A field=b",
    ),
    (
        "[A]\ninputs = \"B\"\noutputs = { Y = \"10\" }",
        "BadField master=A field=inputs",
    ),
    (
        "[A]\ninputs = [1]\noutputs = { Y = \"10\" }",
        "BadField master=A field=inputs",
    ),
    (
        "[A]\ninputs = [\"B\", \"B\"]\noutputs = { Y = \"1000\" }",
        "BadField master=A field=inputs",
    ),
    (
        "[A]\ninputs = [\"B\", \"C\", \"D\", \"E\", \"F\", \"G\", \"B\"]\noutputs = {}",
        "BadField master=A field=inputs",
    ),
    (
        "[A]\ninputs = [\"B\", \"C\", \"D\", \"E\", \"F\", \"G\", \"H\"]\noutputs = {}",
        "TooManyInputs master=A",
    ),
    (
        "[A]\ninputs = [\"Y\"]\noutputs = { Y = \"10\" }",
        "BadField master=A field=outputs",
    ),
    (
        "[A]\ninputs = [\"B\"]\noutputs = {}",
        "BadField master=A field=outputs",
    ),
    (
        "[A]\ninputs = [\"B\"]\noutputs = { Y = 10 }",
        "BadField master=A field=outputs",
    ),
    (
        "[A]\ninputs = [\"B\", \"C\"]\noutputs = { Y = \"111\" }",
        "BadTable master=A output=Y",
    ),
    (
        "[A]\ninputs = [\"B\"]\noutputs = { Y = \"\" }",
        "BadTable master=A output=Y",
    ),
    (
        "[A]\ninputs = [\"B\"]\noutputs = { Y = \"B\", Z = \"B C\", X = \"B |\" }",
        "BadExpression master=A output=X place=3",
    ),
    (
        "[A]\ninputs = [\"B\"]\noutputs = { Y = \"B & D & C\" }",
        "UnknownInput master=A output=Y input=D",
    ),
    // The first fault by bytes: B before a; of a master inputs, then outputs, then other fields.
    ("[a]\n[B]\ninputs = []", "BadField master=B field=outputs"),
    (
        "[A]\nextra = 1\ninputs = [\"B\"]\noutputs = { Y = \"1\" }",
        "BadTable master=A output=Y",
    ),
    (
        "[A]\ninputs = [\"B\"]\noutputs = { B = \"1\", A = \"\" }",
        "BadField master=A field=outputs",
    ),
];

#[test]
fn the_first_fault_of_a_text(rt: HostRuntime) -> Result<(), Fail> {
    for (text, wanted) in FIRST_FAULTS {
        assert_eq!(rt; told(rt.alloc(), text, "A")?.as_str(), wanted, "{text}");
    }
    Ok(())
}

/// The master with these inputs and the output `Y`, or the fault.
fn output_told(alloc: Global, inputs: &str, output: &str) -> Result<String, Fail> {
    let text = format!(in alloc; "[M]\ninputs = [{inputs}]\noutputs = {{ Y = \"{output}\" }}\n")?;
    told(alloc, text.as_str(), "M")
}

/// Outputs of three inputs, and the bits of their tables.
const VALUES: [(&str, u64); 16] = [
    ("A", 170),
    ("B", 204),
    ("C", 240),
    // 11100000, row 0 first
    ("!((A & B) | C)", 7),
    ("11100000", 7),
    // & before ^ before |
    ("A | B & C", 234),
    ("A & B | C", 248),
    ("A | B ^ C", 190),
    ("A ^ B | C", 246),
    ("A ^ B & C", 106),
    ("A & B ^ C", 120),
    ("!A & B", 68),
    ("!!A", 170),
    ("A^B^C", 150),
    ("  ( A )  ", 170),
    ("! A", 85),
];

#[test]
fn values_of_expressions(rt: HostRuntime) -> Result<(), Fail> {
    let alloc = rt.alloc();
    for (output, bits) in VALUES {
        let wanted = format!(in alloc; "A B C > Y={bits}")?;
        let found = output_told(alloc, "\"A\", \"B\", \"C\"", output)?;
        assert_eq!(rt; found, wanted, "{output}");
    }
    Ok(())
}

/// Outputs of inputs whose names have brackets, and the bits of their tables.
const NAMED: [(&str, u64); 4] = [
    ("_a[0]", 170),
    ("a_1[10]b", 204),
    ("A]", 240),
    ("_a[0]&a_1[10]b", 136),
];

#[test]
fn names_in_expressions(rt: HostRuntime) -> Result<(), Fail> {
    let alloc = rt.alloc();
    for (output, bits) in NAMED {
        let wanted = format!(in alloc; "_a[0] a_1[10]b A] > Y={bits}")?;
        let found = output_told(alloc, "\"_a[0]\", \"a_1[10]b\", \"A]\"", output)?;
        assert_eq!(rt; found, wanted, "{output}");
    }
    Ok(())
}

/// Outputs of the inputs `A` and `B`, and their faults.
const BAD_OUTPUTS: [(&str, &str); 14] = [
    ("!", "BadExpression master=M output=Y place=1"),
    (" ", "BadExpression master=M output=Y place=1"),
    ("A B", "BadExpression master=M output=Y place=2"),
    ("A &", "BadExpression master=M output=Y place=3"),
    ("A & & B", "BadExpression master=M output=Y place=4"),
    ("(A", "BadExpression master=M output=Y place=2"),
    ("(A))", "BadExpression master=M output=Y place=3"),
    ("()", "BadExpression master=M output=Y place=1"),
    ("2A", "BadExpression master=M output=Y place=0"),
    ("[0]", "BadExpression master=M output=Y place=0"),
    ("A\\t", "BadExpression master=M output=Y place=1"),
    ("10 ", "BadExpression master=M output=Y place=0"),
    // the grammar comes before the names
    ("X & B &", "BadExpression master=M output=Y place=7"),
    ("A & X & Y", "UnknownInput master=M output=Y input=X"),
];

#[test]
fn where_an_expression_cannot_go_on(rt: HostRuntime) -> Result<(), Fail> {
    for (output, wanted) in BAD_OUTPUTS {
        let found = output_told(rt.alloc(), "\"A\", \"B\"", output)?;
        assert_eq!(rt; found.as_str(), wanted, "{output}");
    }
    Ok(())
}

/// A text, how often it stands, and what stands behind it, of the input `A`; and the master or the fault.
const LONG_OUTPUTS: [(&str, usize, &str, &str); 8] = [
    // `!` and parentheses nest 64 deep together
    ("!", 64, "A", "A > Y=2"),
    ("!", 65, "A", "BadExpression master=M output=Y place=64"),
    ("(", 65, "A", "BadExpression master=M output=Y place=64"),
    ("!(", 32, "A", "BadExpression master=M output=Y place=65"),
    // 4,096 bytes
    (" ", 4095, "A", "A > Y=2"),
    (" ", 4096, "A", "BadExpression master=M output=Y place=4096"),
    ("A|", 2047, "A ", "A > Y=2"),
    (
        "A|",
        2047,
        "A  ",
        "BadExpression master=M output=Y place=4096",
    ),
];

#[test]
fn deep_and_long_expressions(rt: HostRuntime) -> Result<(), Fail> {
    for (text, count, last, wanted) in LONG_OUTPUTS {
        let mut output = repeated(rt.alloc(), text, count)?;
        output.push_str(last)?;
        let found = output_told(rt.alloc(), "\"A\"", output.as_str())?;
        assert_eq!(rt; found.as_str(), wanted, "{count} {text}{last}");
    }
    Ok(())
}

/// A file of so many masters without a field.
fn empty_masters(alloc: Global, count: u32) -> Result<String, Fail> {
    let mut text = String::new(alloc);
    for number in 0..count {
        write!(text, "[M{number}]\n")?;
    }
    Ok(text)
}

#[test]
fn too_many_masters(rt: HostRuntime) -> Result<(), Fail> {
    let most = empty_masters(rt.alloc(), 16384)?;
    let found = told(rt.alloc(), most.as_str(), "M0")?;
    assert_eq!(rt; found.as_str(), "BadField master=M0 field=inputs");
    let more = empty_masters(rt.alloc(), 16385)?;
    let found = told(rt.alloc(), more.as_str(), "M0")?;
    assert_eq!(rt; found.as_str(), "TooManyMasters count=16385");
    Ok(())
}

/// The master `INV` of one input and one output with these names, if they make one.
fn inverter(alloc: Global, input: &str, output: &str) -> Result<Option<MasterFn>, Memory> {
    let input = Name::of(alloc, input.as_bytes())?;
    let Some(table) = Table::new(1, 1) else {
        return Ok(None);
    };
    let output = OutputFn {
        pin: Name::of(alloc, output.as_bytes())?.copy(alloc)?,
        table,
    };
    let inputs = vec![in alloc; input]?;
    let outputs = vec![in alloc; output]?;
    MasterFn::new(alloc, Name::of(alloc, b"INV")?, inputs, outputs)
}

/// The pins of the copy of an inverter with these names.
fn copy_told(alloc: Global, input: &str, output: &str) -> Result<String, Fail> {
    let mut line = String::new(alloc);
    if let Some(master) = inverter(alloc, input, output)? {
        let master = master.copy()?;
        push_bytes(&mut line, master.name().bytes())?;
        line.push_str(" ")?;
        push_inputs(&mut line, &master)?;
        push_outputs(&mut line, &master)?;
    }
    Ok(line)
}

#[test]
fn a_master_and_its_copy(rt: HostRuntime) -> Result<(), Fail> {
    let found = copy_told(rt.alloc(), "A", "Y")?;
    assert_eq!(rt; found.as_str(), "INV A > Y=1");
    assert_eq!(rt; copy_told(rt.alloc(), "A", "A")?.as_str(), "");
    Ok(())
}
