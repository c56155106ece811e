// What the cell heap stores, and how it changes.
ghost use Rattle.std.specs.Prelude.{◌+◌, ◌<◌, ◌≤◌, length};
ghost use Rattle.filled.specs.Items.{items_of};
ghost use Rattle.heap.specs.Limits.{row_limit};
ghost use Rattle.cell_heap.specs.Limits.{cell_limit};
ghost use Rattle.heap.specs.Calls.{object_at};
ghost use Rattle.cell_heap.specs.CellHeaps.{cell_line, cell_meaning, HeadAt, FieldAt, LaidBehind};
ghost use Rattle.cell_heap.specs.CellsLawful.{cells_lawful};

use crate::cell::{Cell, Head};
use crate::cells::Cells;
use crate::limits::CELLS;
use filled::filled::Filled;
use heap::charge::ChargeLine;
use heap::layout::Layout;
use heap::value::Value;

/// One for each object and one for each field, and as many as there are cells.
pub const CELL_LINE: ChargeLine = ChargeLine {
    fixed: 1,
    per_field: 1,
    total: CELLS as u16,
};

impl Cells {
    // Where the object at an address starts.
    fn head(&self, addr: u16) -> usize
        requires { addr < length (cell_meaning self.now).objects }
        ensures { HeadAt self.now addr result }
    {
        self.starts.as_slice()[addr as usize] as usize
    }

    // Where a field of the object at an address stands.
    fn place(&self, addr: u16, field: usize) -> usize
        requires object { addr < length (cell_meaning self.now).objects }
        requires field { field < length (object_at (cell_meaning self.now) addr).row }
        ensures { FieldAt self.now addr field result }
    {
        self.head(addr) + (1 + field)
    }
}

// An object's head and fields, behind the cells that there are.
fn lay(cells: &mut Filled<Cell, CELLS>, class: u8, row: &[Value])
    requires short { length row.now ≤ row_limit }
    requires room { length (items_of cells.old) + (1 + length row.now) ≤ cell_limit }
    ensures { LaidBehind (items_of cells.old) (items_of cells.new) class row.now }
{
    let head = Head {
        class,
        len: row.len() as u8,
    };
    cells.push(Cell::Start(head)).unwrap();
    for value in row {
        cells.push(Cell::Field(*value)).unwrap();
    }
}

impl Layout for Cells {
    ghost meaning = { cell_meaning };

    ghost lawful = { cells_lawful };

    ghost line = { cell_line };

    fn vacant() -> Self {
        Cells {
            cells: Filled::new(Cell::Field(Value::Unit)),
            starts: Filled::new(0),
        }
    }

    fn clear(&mut self) {
        self.cells.clear();
        self.starts.clear();
    }

    fn line(&self) -> ChargeLine {
        CELL_LINE
    }

    fn count(&self) -> u16 {
        self.starts.len() as u16
    }

    fn has_room(&self, n: usize) -> bool {
        self.cells.len() + (1 + n) <= CELLS
    }

    fn push(&mut self, class: u8, row: &[Value]) {
        let at = self.cells.len() as u16;
        lay(&mut self.cells, class, row);
        self.starts.push(at).unwrap();
    }

    fn class_at(&self, addr: u16) -> u8 {
        self.cells.as_slice()[self.head(addr)].class()
    }

    fn len_at(&self, addr: u16) -> usize {
        self.cells.as_slice()[self.head(addr)].len()
    }

    fn value_at(&self, addr: u16, field: usize) -> Value {
        self.cells.as_slice()[self.place(addr, field)].value()
    }

    fn put(&mut self, addr: u16, field: usize, value: Value) {
        let at = self.place(addr, field);
        let _ = self.cells.replace(at, Cell::Field(value));
    }
}
