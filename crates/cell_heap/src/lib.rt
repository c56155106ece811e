//! The cell heap: objects of any length, one behind the other in a strip of cells.
#![tactic(auto)]

mod cell;
pub mod cells;
pub mod limits;
mod strip;

use cells::Cells;
use heap::laid::Laid;
pub use strip::CELL_LINE;

/// A heap of 1,024 cells, with the charge line (1, 1, 1,024).
pub type CellHeap = Laid<Cells>;
