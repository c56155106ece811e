//! The verifier: which sets are accepted, and the least well-typing of each of their methods.
#![tactic(auto)]

pub mod accepted;
pub mod fault;
mod hold;
pub mod least;
pub mod load;
pub mod load_fault;
mod typing;
pub mod verify;
