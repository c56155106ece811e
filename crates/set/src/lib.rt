// The rule set in memory, and its reader.
#![tactic(auto)]

mod class;
mod counted;
mod items;
mod make;
mod method;
mod methods;
mod names;
mod push;
pub mod reader;
pub mod set;
mod signature;
mod spans;
mod table;
mod whole;
