// A cell of the cell heap.
ghost use Rattle.std.specs.Prelude.{◌≡◌, ◌≤◌};
ghost use Rattle.heap.specs.Limits.{row_limit};

use heap::value::Value;

/// The head of an object: its class, and how many fields come after it.
#[derive(Clone, Copy)]
pub struct Head {
    pub(crate) class: u8,
    pub(crate) len: u8,
    ghost short: { len ≤ row_limit },
}

/// Where an object starts, or one of its fields.
#[derive(Clone, Copy)]
pub enum Cell {
    Start(Head),
    Field(Value),
}

// What a cell says as a head, and as a field.
impl Cell {
    ghost use Rattle.cell_heap.specs.Cells.{class_of, len_of, value_of};

    pub(crate) fn class(self) -> u8
        ensures { result ≡ class_of self }
    {
        match self {
            Cell::Start(head) => head.class,
            Cell::Field(_) => 0,
        }
    }

    pub(crate) fn len(self) -> usize
        ensures { result ≡ len_of self }
    {
        match self {
            Cell::Start(head) => head.len as usize,
            Cell::Field(_) => 0,
        }
    }

    pub(crate) fn value(self) -> Value
        ensures { result ≡ value_of self }
    {
        match self {
            Cell::Start(_) => Value::Unit,
            Cell::Field(value) => value,
        }
    }
}
