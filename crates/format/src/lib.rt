// The file format as definitions: limits, encoding, rules and parser; the faults of a table, and the laws of files.
#![tactic(auto)]

pub mod fault;
pub mod laws;
pub mod limits;

pub use fault::TableFault;
