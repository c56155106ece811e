// The flat tables of a rule set, and what is looked up in them.
#![tactic(auto)]

pub mod classes;
mod code;
mod empty;
mod fields;
mod methods;
pub mod names;
pub mod records;
pub mod tables;
mod types;
