// A strip of cells: the head and the fields of each object, one object behind another.
ghost use Rattle.std.specs.Prelude.{◌≡◌, ℕ, ◌<◌, length, slice_index};
ghost use Rattle.filled.specs.Items.{items_of};
ghost use Rattle.cell_heap.specs.Strip.{start};
ghost use Rattle.cell_heap.specs.Cells.{cell, cell_at};

use crate::cell::Cell;
use crate::limits::CELLS;
use filled::filled::Filled;

/// A layout of 1,024 cells, with the charge line (1, 1, 1,024). `starts` has the place of each object's head, so that no
/// call walks the cells.
#[derive(Drop)]
pub struct Cells {
    pub(crate) cells: Filled<Cell, CELLS>,
    pub(crate) starts: Filled<u16, CELLS>,
    ghost laid: { start cell (cell_at (items_of cells)) (length (items_of starts)) ≡ length (items_of cells) },
    ghost indexed: { (a : ℕ) → a < length (items_of starts) → slice_index (items_of starts) a ≡ start cell (cell_at (items_of cells)) a },
}
