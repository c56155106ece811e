// Bytes in hexadecimal.
use crate::stop::{NotUnderstood, Stop};
use std::alloc::Global;
use std::fmt;
use std::string::String;
use std::vec::Vec;

/// Bytes in lowercase, without spaces.
#[derive(Drop)]
pub struct Hex<'a>(pub &'a [u8]);

impl fmt::Display for Hex<'_> {
    fn fmt<W: fmt::Write>(&self, f: &mut fmt::Formatter<W>) -> fmt::Result {
        for b in self.0 {
            write!(f, "{b:02x}")?;
        }
        Ok(())
    }
}

/// The bytes that the words write together.
pub fn bytes_of(alloc: Global, words: &[String]) -> Result<Vec<u8>, Stop> {
    let mut bytes = Vec::new(alloc);
    // The first digit of a byte. (No list of digits: with one a line takes 1.4 times the memory.)
    let mut first = None;
    for word in words {
        for c in word.as_str().chars() {
            let digit = c.to_digit(16).ok_or(NotUnderstood)? as u8;
            match first.take() {
                None => first = Some(digit),
                Some(high) => bytes.push(high << 4 | digit)?,
            }
        }
    }
    match first {
        None => Ok(bytes),
        Some(_) => Err(Stop::NotUnderstood),
    }
}
