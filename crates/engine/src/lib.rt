//! The step of a running machine over any heap: frames in fixed memory, and each instruction on them.
#![tactic(auto)]

mod bounds;
mod calling;
mod catching;
mod creating;
mod fields;
mod fitting;
mod frame;
pub mod frames;
mod local;
mod looking;
pub mod next;
mod objects;
mod opening;
mod operands;
mod program;
mod putting;
mod references;
mod returning;
mod standing;
pub mod start;
pub mod step;
mod throwing;
mod values;
