// Numbers of rule-set files: groups of seven bits, lowest first, read from a file and put into one.
#![tactic(auto)]

pub mod cursor;
pub mod fault;
pub mod laws;
mod limits;
pub mod pen;
pub mod signed;
#[cfg(test)]
mod tests;
