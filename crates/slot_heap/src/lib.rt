//! The slot heap: a slot for each object, whatever its row.
#![tactic(auto)]

pub mod limits;
pub mod slots;

use heap::laid::Laid;
pub use slots::SLOT_LINE;
use slots::Slots;

/// A heap of 128 slots, with the charge line (1, 0, 128).
pub type SlotHeap = Laid<Slots>;
