//! Lines of plain text that answers are turned into.

use std::alloc::Global;
use std::test::Fail;

/// Puts a text's bytes behind a line.
pub fn push_bytes(line: &mut String, bytes: &[u8]) -> Result<(), Fail> {
    line.push_str(str::from_utf8(bytes)?)?;
    Ok(())
}

/// A text so many times.
pub fn repeated(alloc: Global, text: &str, count: usize) -> Result<String, Fail> {
    Ok(text.repeat(alloc, count)?)
}
