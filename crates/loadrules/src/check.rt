// `loadrules check FILE`: whether a set is accepted.
use crate::faults::Refused;
use crate::listing::Counts;
use crate::options::Words;
use crate::stop::Stop;
use set::set::Set;
use std::fs;
use verifier::accepted::Accepted;
use verifier::load::load;
use walk::WORKSPACE;

/// Checks the file that the words name.
pub fn check_file(rt: &HostRuntime, words: &mut Words) -> Result<(), Stop> {
    let path = words.text()?;
    words.end()?;
    let accepted = load_file(rt, path)?;
    println!(rt; "accepted {}", Counts(accepted.set().tables()))?;
    Ok(())
}

/// Loads the file at that path.
pub fn load_file(rt: &HostRuntime, path: &str) -> Result<Accepted, Stop> {
    let file = fs::read(rt, path)?;
    let mut set = Set::empty();
    let mut accepted = Accepted::empty();
    let mut workspace = [0u16; WORKSPACE];
    load(file.as_slice(), &mut set, &mut workspace, &mut accepted).map_err(Refused::File)?;
    Ok(accepted)
}
