//! A list in fixed memory: up to so many items in an array, with how many there are.
#![tactic(auto)]

mod change;
pub mod filled;
mod look;
