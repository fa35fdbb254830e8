//! The words of the command line.

use dev_traits::Word;
use lists::NoMemory;
use std::env::{Env, FillError};

/// How many bytes a word's first buffer has; each further one has twice as many.
const FIRST_SIZE: usize = 256;

/// A word of these bytes; bytes that aren't UTF-8 count as an empty word.
fn word_of(rt: &HostRuntime, bytes: &[u8]) -> Result<Word, NoMemory> {
    match str::from_utf8(bytes) {
        Ok(text) => Word::new(rt.alloc(), text),
        Err(_) => Word::new(rt.alloc(), ""),
    }
}

/// The word of this number, where there are so many; the program's name is number 0.
fn read_word(rt: &HostRuntime, number: usize) -> Result<Option<Word>, NoMemory> {
    let mut size = FIRST_SIZE;
    for _ in 0..usize::BITS {
        let mut bytes = vec![in rt.alloc(); 0u8; size]?;
        match rt.arg(number, &mut bytes) {
            Ok(n) => return Ok(Some(word_of(rt, &bytes[..n])?)),
            Err(FillError::NotPresent) => return Ok(None),
            Err(FillError::TooLong) => size = size.saturating_mul(2),
        }
    }
    Err(NoMemory)
}

/// The words after the program's name.
pub fn command_words(rt: &HostRuntime) -> Result<Vec<Word>, NoMemory> {
    let mut words = Vec::new(rt.alloc());
    for number in 1..usize::MAX {
        match read_word(rt, number)? {
            Some(word) => words.push(word)?,
            None => break,
        }
    }
    Ok(words)
}
