//! Writing pieces of text to a sink.

ghost use Rattle.std.specs.Prelude.{◌≡◌, slice_range};
ghost use Rattle.eco_text.specs.Cursor.{word_bytes};
ghost use Rattle.eco_text.specs.Writing.{joined, Writes};

use crate::sink::Sink;
use crate::word::Word;
use eco_common::Failed;

/// The bytes from one index to another, as far as there are any.
pub fn part(bytes: &[u8], from: usize, to: usize) -> &[u8]
    ensures { result.now ≡ slice_range bytes.now from to }
{
    let to = bytes.len().min(to);
    if from < to { &bytes[from..to] } else { &[] }
}

/// The bytes of a text from one place to another, as far as there are any.
pub fn between(text: &[u8], from: u32, to: u32) -> &[u8]
    ensures { result.now ≡ slice_range text.now from to }
{
    part(text, from as usize, to as usize)
}

/// The bytes of a word in its text.
pub fn bytes_at(text: &[u8], word: Word) -> &[u8]
    ensures { result.now ≡ word_bytes text.now word }
{
    between(text, word.start, word.end)
}

pub fn write_piece<K: Sink>(piece: &[u8], sink: &mut K) -> Result<(), Failed>
    ensures { Writes K.taken K.faults sink.old sink.new result piece.now }
{
    sink.write_all(piece)
}

/// Writes the pieces one after another.
pub fn write_pieces<K: Sink>(sink: &mut K, pieces: &[&[u8]]) -> Result<(), Failed>
    ensures { Writes K.taken K.faults sink.old sink.new result (joined pieces.now) }
{
    for piece in pieces {
        sink.write_all(piece)?;
    }
    Ok(())
}
