//! The machine: made from an accepted set over any heap, then begun, stepped, run, ended and looked at.
#![tactic(auto)]

mod begin;
pub mod call;
mod end;
pub mod history;
mod look;
pub mod machine;
mod make;
mod perform;
mod play;
pub mod played;
mod running;
pub mod short;
pub mod ticket;
