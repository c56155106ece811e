// `loadrules list FILE`: the listing of a file, and then its bytes written again from the set.
use crate::faults::{Brief, Refused};
use crate::listing::Listing;
use crate::options::Words;
use crate::stop::Stop;
use set::reader::read;
use set::set::Set;
use std::fs;
use writer::write;

/// Lists the file that the words name.
pub fn list_file(rt: &HostRuntime, words: &mut Words) -> Result<(), Stop> {
    let path = words.text()?;
    words.end()?;
    let file = fs::read(rt, path)?;
    let mut set = Set::empty();
    read(file.as_slice(), &mut set).map_err(Refused::from)?;
    print!(rt; "{}", Listing(set.tables()))?;
    print_again(rt, file.as_slice(), &set)
}

// Writes the set into an output of the file's length, and says whether the bytes are the same.
fn print_again(rt: &HostRuntime, file: &[u8], set: &Set) -> Result<(), Stop> {
    let mut out = vec![in rt.alloc(); 0u8; file.len()]?;
    match write(set, out.as_mut_slice()) {
        Ok(n) if out.as_slice() == file => println!(rt; "written again: {n} bytes, the same")?,
        Ok(n) => println!(rt; "written again: {n} bytes, not the same")?,
        Err(fault) => println!(rt; "not written again: {}", Brief(Refused::Output(fault)))?,
    }
    Ok(())
}
