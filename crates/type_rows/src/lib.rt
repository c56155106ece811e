//! Type rows of a method: the rule of each instruction over rows of numbers, their join, and the flow that they make.
#![tactic(auto)]

pub mod analysis;
mod apply;
mod calls;
mod catch;
mod edges;
mod ends;
mod frame;
mod handed;
mod handlers;
mod join;
pub mod laws;
mod leads;
mod make;
pub mod method;
mod node;
mod nodes;
mod objects;
mod refuse;
pub mod row;
mod same;
mod send;
mod site;
mod start;
mod step;
mod steps;
mod types;
