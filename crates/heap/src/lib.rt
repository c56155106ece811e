// Heaps: objects under charge lines, one meaning for every heap.
#![tactic(auto)]

pub mod allowance;
pub mod charge;
pub mod fault;
pub mod laid;
pub mod layout;
pub mod limits;
pub mod store;
pub mod totals;
pub mod usage;
pub mod value;
