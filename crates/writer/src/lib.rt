// The writer: a rule set's file, put into a slice that is handed in.
#![tactic(auto)]

pub mod fault;
mod items;
pub mod limits;
mod lists;
mod numbers;
mod records;
#[cfg(test)]
mod tests;
pub mod writing;

pub use fault::WriteFault;
pub use limits::LONGEST_FILE;
pub use writing::{write, written_len};
