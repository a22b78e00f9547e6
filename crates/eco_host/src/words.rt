//! The words of the command line.

use std::alloc::{AllocError, Global};
use std::env::FillError;
use std::rt::Env;

/// More bytes than a word of a command line has on Linux.
const LONGEST: usize = 131_072;

/// The text of a word. One that isn't UTF-8 is left empty, which is a bad word at any place.
fn text_of(alloc: Global, bytes: &[u8]) -> Result<String, AllocError> {
    match str::from_utf8(bytes) {
        Ok(text) => String::from_str(alloc, text),
        Err(_) => Ok(String::new(alloc)),
    }
}

/// The words behind the program's name.
pub fn read_words<R: Env + AllocGlobal>(rt: &R) -> Result<Vec<String>, AllocError> {
    let mut words = Vec::new(rt.alloc());
    let mut bytes = vec![in rt.alloc(); 0; LONGEST]?;
    for place in 1..usize::MAX {
        match rt.arg(place, &mut bytes) {
            Ok(len) => words.push(text_of(rt.alloc(), &bytes[..len])?)?,
            Err(FillError::TooLong) => words.push(String::new(rt.alloc()))?,
            Err(FillError::NotPresent) => break,
        }
    }
    Ok(words)
}
