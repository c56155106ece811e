// A row of numbers in a workspace: its height, its stack cells and its registers.
ghost use Rattle.std.specs.Prelude.{◌≡◌, ◌+◌, ◌-◌, ◌≤◌, ◌∷◌, ◌++◌, length, take, replicate, slice_index};
ghost use Rattle.format.specs.Limits.{max_height};
ghost use Rattle.type_rows.specs.Numbers.{width, absent, row_numbers};
ghost use Rattle.jinja.specs.Rows.{unreached};
ghost use Rattle.type_rows.specs.ShownRows.{ShownBy};

use format::limits::{MAX_HEIGHT, MAX_REGISTERS};
use walk::WIDTH;

/// The number of what is absent or unusable.
pub const ABSENT: u16 = 255;

/// How many stack cells a row has, behind its first number.
pub const CELLS: usize = MAX_HEIGHT as usize;

/// Where the registers of a row begin.
pub const REGISTERS: usize = 1 + CELLS;

/// What a row shows.
#[derive(Clone, Copy, PartialEq, Eq, Debug)]
pub enum Shown {
    /// Nothing has reached the instruction.
    Unreached,
    /// A stack of this height, and registers.
    Reached(usize),
    /// Paths clash.
    Clash,
}

impl Shown {
    /// By the first number: 0 is unreached, 1 + h a stack of height h, and all else a clash.
    pub(crate) fn of(row: &[u16]) -> Shown
        requires { length row.now ≡ width }
        ensures { ShownBy (slice_index row.now 0) result }
    {
        let first = row[0] as usize;
        match first {
            0 => Shown::Unreached,
            1..=REGISTERS => Shown::Reached(first - 1),
            _ => Shown::Clash,
        }
    }
}

/// Makes every number absent.
pub fn clear(row: &mut [u16])
    ensures { row.new ≡ replicate (length row.old) absent }
{
    row.fill(ABSENT);
}

/// Makes every number from `k` on absent.
pub fn clear_from(cells: &mut [u16], k: usize)
    requires { k ≤ length cells.old }
    ensures { cells.new ≡ take k cells.old ++ replicate (length cells.old - k) absent }
{
    let end = cells.len();
    clear(&mut cells[k..end]);
}

/// Writes the row of an instruction that nothing has reached.
pub fn write_unreached(row: &mut [u16])
    requires { length row.old ≡ width }
    ensures { row.new ≡ row_numbers unreached }
{
    clear(row);
    row[0] = 0;
}

/// Writes a row of this height from its stack cells and registers.
pub(crate) fn write_row(
    out: &mut [u16; WIDTH],
    height: u16,
    cells: &[u16; CELLS],
    registers: &[u16; MAX_REGISTERS],
)
    requires { height ≤ max_height }
    ensures { out.new ≡ (height + 1) ∷ (cells.now ++ registers.now) }
{
    out[0] = height + 1;
    out[1..REGISTERS].copy_from_slice(cells);
    out[REGISTERS..WIDTH].copy_from_slice(registers);
}
