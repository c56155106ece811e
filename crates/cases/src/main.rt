// Reads the rule-set files of stdin, one a line in hexadecimal, and says of each what the reader answers and whether
// the writer gives the same bytes. Lines that begin with # are labels. tests/reading_cases.py makes both streams.
#![tactic(auto)]

use anyhow::Context;
use set::reader::read;
use set::set::Set;
use std::alloc::{AllocError, Global};
use writer::write;

fn main(rt: HostRuntime) -> anyhow::Result<()> {
    let alloc = rt.alloc();
    let mut set = Set::empty();
    for line in rt.lines(alloc) {
        let line = line?;
        let text = line.as_str();
        if text.starts_with("#") {
            println!(rt; "{text}")?;
        } else {
            let file = bytes_of(alloc, text)?;
            answer(&rt, file.as_slice(), &mut set)?;
        }
    }
    Ok(())
}

fn answer(rt: &HostRuntime, file: &[u8], set: &mut Set) -> anyhow::Result<()> {
    if let Err(fault) = read(file, set) {
        println!(rt; "refused {} at {}", fault.number(), fault.place())?;
        return Ok(());
    }
    let classes = set.tables().classes.len();
    let methods = set.tables().methods.len();
    let instructions = set.tables().instrs.len();
    let again = if same_again(rt.alloc(), file, set)? {
        "the same"
    } else {
        "otherwise"
    };
    println!(rt;
        "read classes {classes} methods {methods} instructions {instructions}, written {again}"
    )?;
    Ok(())
}

// Whether the writer gives the file again, into an output of exactly its length.
fn same_again(alloc: Global, file: &[u8], set: &Set) -> Result<bool, AllocError> {
    let mut out = vec![in alloc; 0u8; file.len()]?;
    let written = write(set, out.as_mut_slice());
    Ok(written.is_ok_and(|n| n == file.len() && out.as_slice() == file))
}

// The bytes that a line writes; half a byte at its end is left out.
fn bytes_of(alloc: Global, text: &str) -> anyhow::Result<Vec<u8>> {
    let mut bytes = Vec::new(alloc);
    // The first digit of a byte. (No list of digits: with one a line takes 1.7 times the memory.)
    let mut first = None;
    for b in text.bytes() {
        let digit = digit(b).context("no hexadecimal digit")?;
        match first.take() {
            None => first = Some(digit),
            Some(high) => bytes.push(high << 4 | digit)?,
        }
    }
    Ok(bytes)
}

// Uppercase digits are none, unlike in the command, with which this program shares no crate.
fn digit(b: u8) -> Option<u8> {
    match b {
        b'0'..=b'9' => Some(b - b'0'),
        b'a'..=b'f' => Some(b - b'a' + 10),
        _ => None,
    }
}
