//! Printed lines.

ghost use Rattle.std.specs.Prelude.{◌≡◌, codes, decimal, ◌++◌, [], ◌∷◌};
ghost use Rattle.eco_text.specs.Writing.{Writes};
ghost use Rattle.eco_cli.specs.Telling.{count_line};

use eco_common::Failed;
use eco_text::{Sink, write_pieces};
use itoa::Buffer;

/// A line that ends with a number.
pub fn print_number<O: Sink>(head: &[u8], number: u64, out: &mut O) -> Result<(), Failed>
    ensures { Writes O.taken O.faults out.old out.new result (count_line head.now number) }
{
    let mut buffer = Buffer::new();
    let digits = buffer.format(number);
    write_pieces(out, &[head, digits.as_bytes(), b"\n"])
}

/// A line of three parts.
pub fn print_parts<O: Sink>(
    first: &[u8],
    second: &[u8],
    third: &[u8],
    out: &mut O,
) -> Result<(), Failed>
    ensures { Writes O.taken O.faults out.old out.new result ((first.now ++ (second.now ++ third.now)) ++ 10 ∷ []) }
{
    write_pieces(out, &[first, second, third, b"\n"])
}

/// A line of a name and a place.
pub fn print_place<O: Sink>(head: &[u8], name: &[u8], place: u32, out: &mut O) -> Result<(), Failed>
    ensures { Writes O.taken O.faults out.old out.new result ((head.now ++ (name.now ++ decimal place)) ++ 10 ∷ []) }
{
    let mut buffer = Buffer::new();
    let digits = buffer.format(place);
    print_parts(head, name, digits.as_bytes(), out)
}

/// A line of two fields.
pub fn print_two<O: Sink>(
    head: &[u8],
    first: &[u8],
    word: &[u8],
    second: &[u8],
    out: &mut O,
) -> Result<(), Failed>
    ensures { Writes O.taken O.faults out.old out.new result ((head.now ++ (first.now ++ (word.now ++ second.now))) ++ 10 ∷ []) }
{
    write_pieces(out, &[head, first, word, second, b"\n"])
}

/// A line of three fields.
pub fn print_three<O: Sink>(
    head: &[u8],
    first: &[u8],
    word: &[u8],
    second: &[u8],
    last_word: &[u8],
    third: &[u8],
    out: &mut O,
) -> Result<(), Failed>
    ensures { Writes O.taken O.faults out.old out.new result ((head.now ++ (first.now ++ (word.now ++ (second.now ++ (last_word.now ++ third.now))))) ++ 10 ∷ []) }
{
    write_pieces(out, &[head, first, word, second, last_word, third, b"\n"])
}
