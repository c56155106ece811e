// Rows of numbers joined: cells pair by pair, with word whether the row changed.
ghost use Rattle.std.specs.Prelude.{◌≡◌, ◌≤◌, length, MatchBool, ◌≢◌, slice_index};
ghost use Rattle.tables.specs.Views.{program_of};
ghost use Rattle.type_rows.specs.Joining.{join_number, join_numbers, has_absent};
ghost use Rattle.jinja.specs.Classes.{maybe};
ghost use Rattle.jinja.specs.Join.{join_cell};
ghost use Rattle.jinja.specs.Rows.{usable, unusable};
ghost use Rattle.type_rows.specs.Numbers.{largest, cell_of_number, Small, Shows, read_row};
ghost use Rattle.jinja.specs.Rows as rows;
ghost use Rattle.type_rows.specs.Merging.{merge};
ghost use Rattle.type_rows.specs.RowSteps.{Reached};
ghost use Rattle.type_rows.specs.Stepping.{program, owned};

use crate::method::Method;
use crate::row::{ABSENT, REGISTERS};
use crate::types::{cell_number, cell_type, joined};
use jinja::ty::Ty;
use tables::tables::Tables;

/// The first number of a row in which paths clash.
const CLASH: u16 = 18;

impl<'a> Method<'a> {
    // Joins `other` into `row`, and says whether that changed what it means.
    pub(crate) fn join_rows(&self, row: &mut [u16], other: &[u16]) -> bool
        requires row { Shows (program self.now) (owned self.now) row.old }
        requires other { Shows (program self.now) (owned self.now) other.now }
        ensures shows { Shows (program self.now) (owned self.now) row.new }
        ensures means { read_row (rows.registers (owned self.now)) row.new ≡ merge (program self.now) (read_row (rows.registers (owned self.now)) row.old) (read_row (rows.registers (owned self.now)) other.now) }
        ensures changed { MatchBool result (read_row (rows.registers (owned self.now)) row.new ≢ read_row (rows.registers (owned self.now)) row.old) (read_row (rows.registers (owned self.now)) row.new ≡ read_row (rows.registers (owned self.now)) row.old) }
    {
        // Kept, no plainer by `Shown`: the first numbers are also compared with one another.
        if other[0] == 0 {
            return false;
        }
        if row[0] as usize > REGISTERS {
            return false;
        }
        if row[0] == 0 {
            row.copy_from_slice(other);
            return true;
        }
        if row[0] != other[0] {
            row[0] = CLASH;
            return true;
        }
        self.join_reached(row, other)
    }

    // Joins a row of the same height into a row that is reached.
    fn join_reached(&self, row: &mut [u16], other: &[u16]) -> bool
        requires row { Shows (program self.now) (owned self.now) row.old }
        requires other { Shows (program self.now) (owned self.now) other.now }
        requires reached { Reached row.old }
        requires same { slice_index other.now 0 ≡ slice_index row.old 0 }
        ensures shows { Shows (program self.now) (owned self.now) row.new }
        ensures means { read_row (rows.registers (owned self.now)) row.new ≡ merge (program self.now) (read_row (rows.registers (owned self.now)) row.old) (read_row (rows.registers (owned self.now)) other.now) }
        ensures changed { MatchBool result (read_row (rows.registers (owned self.now)) row.new ≢ read_row (rows.registers (owned self.now)) row.old) (read_row (rows.registers (owned self.now)) row.new ≡ read_row (rows.registers (owned self.now)) row.old) }
    {
        let top = row[0] as usize;
        let end = REGISTERS + self.registers;
        let stack = join_numbers(self.tables, &mut row[1..top], &other[1..top]);
        let registers = join_numbers(
            self.tables,
            &mut row[REGISTERS..end],
            &other[REGISTERS..end],
        );
        if any_absent(&row[1..top]) {
            row[0] = CLASH;
            return true;
        }
        stack || registers
    }
}

// The number of two cells joined.
fn join_number(tables: &Tables, a: u16, b: u16) -> u16
    requires left { a ≤ largest }
    requires right { b ≤ largest }
    ensures joins { result ≡ join_number (program_of tables.now) a b }
    ensures small { result ≤ largest }
{
    if a == b {
        a
    } else {
        cell_number(joined_cells(tables, a, b))
    }
}

// The least type above those of two usable cells, if there is one.
fn joined_cells(tables: &Tables, a: u16, b: u16) -> Option<Ty>
    requires left { a ≤ largest }
    requires right { b ≤ largest }
    ensures { maybe result unusable usable ≡ join_cell (program_of tables.now) (cell_of_number a) (cell_of_number b) }
{
    joined(tables, cell_type(a)?, cell_type(b)?)
}

// Joins cells into cells, and says whether that changed one.
pub(crate) fn join_numbers(tables: &Tables, cells: &mut [u16], others: &[u16]) -> bool
    requires same { length cells.old ≡ length others.now }
    requires left { Small cells.old }
    requires right { Small others.now }
    ensures joins { cells.new ≡ join_numbers (program_of tables.now) cells.old others.now }
    ensures small { Small cells.new }
    ensures changed { MatchBool result (cells.new ≢ cells.old) (cells.new ≡ cells.old) }
{
    let mut changed = false;
    // Kept, tried by `zip`: no invariant can name the cells that a zipped `iter_mut` has written.
    for (k, cell) in cells.iter_mut().enumerate() {
        let joined = join_number(tables, *cell, others[k]);
        if joined != *cell {
            *cell = joined;
            changed = true;
        }
    }
    changed
}

// Whether a cell is absent.
pub(crate) fn any_absent(cells: &[u16]) -> bool
    ensures { result ≡ has_absent cells.now }
{
    cells.contains(&ABSENT)
}
