// The frame that an instruction works on: types on an operand stack and in registers, one number a cell.
ghost use Rattle.std.specs.Prelude.{◌≡◌, ℕ, ◌<◌, ◌≤◌, ◌∷◌, true, false, length, drop, Some, None, MatchOption, nat_lt, slice_set};
ghost use Rattle.format.specs.Limits.{max_height, max_registers};
ghost use Rattle.jinja.specs.Classes.{maybe};
ghost use Rattle.jinja.specs.Handlers.{lowest};
ghost use Rattle.jinja.specs.Options.{top, top_of};
ghost use Rattle.jinja.specs.Rows.{usable};
ghost use Rattle.jinja.specs.Types.{type_number};
ghost use Rattle.type_rows.specs.Calling.{SeenType};
ghost use Rattle.type_rows.specs.Numbers.{absent, Small};
ghost use Rattle.type_rows.specs.Registers.{loaded};

use crate::row::{CELLS, REGISTERS, write_row};
use crate::types::cell_type;
use format::limits::MAX_REGISTERS;
use jinja::ty::Ty;
use stack::Stack;
use walk::WIDTH;

/// A stack of types in the first `height` cells, and registers; each number is small.
// Kept by a rule of the project, fixed memory: a frame is copied whole, so the cells are an array and no `Vec`.
#[derive(Clone, Copy)]
pub(crate) struct TypeFrame {
    cells: [u16; CELLS],
    height: usize,
    registers: [u16; MAX_REGISTERS],
    ghost low: { height ≤ max_height },
    ghost small: { Small cells },
    ghost others: { Small registers },
}

impl TypeFrame {
    ghost use Rattle.type_rows.specs.RowSteps.{row_types, row_cells, Reached};
    ghost use Rattle.type_rows.specs.TypeFrames.{frame_types, frame_cells};

    /// The frame of a row that is reached.
    pub(crate) fn read(row: &[u16]) -> TypeFrame
        requires { Reached row.now }
        ensures types { frame_types result ≡ row_types row.now }
        ensures registers { (n : ℕ) → frame_cells n result ≡ row_cells n row.now }
    {
        let mut cells = [0u16; CELLS];
        cells.copy_from_slice(&row[1..REGISTERS]);
        let mut registers = [0u16; MAX_REGISTERS];
        registers.copy_from_slice(&row[REGISTERS..WIDTH]);
        TypeFrame {
            cells,
            height: row[0] as usize - 1,
            registers,
        }
    }

    /// Writes the row of the frame.
    pub(crate) fn write(&self, out: &mut [u16; WIDTH])
        ensures types { row_types out.new ≡ frame_types self.now }
        ensures registers { (n : ℕ) → row_cells n out.new ≡ frame_cells n self.now }
        ensures reached { Reached out.new }
    {
        write_row(out, self.height as u16, &self.cells, &self.registers);
    }

    /// How many types the stack holds.
    pub(crate) fn height(&self) -> usize
        ensures { result ≡ length (frame_types self.now) }
    {
        self.height
    }

    /// Takes the topmost type.
    pub(crate) fn pop(&mut self) -> Option<Ty>
        ensures popped { top_of (frame_types self.old) ≡ maybe result None (λ t. Some (top t (frame_types self.new))) }
        ensures registers { self.new.registers ≡ self.old.registers }
    {
        let mut stack = Stack::over(&mut self.cells, self.height);
        let n = stack.pop()?;
        self.height = stack.height();
        Ty::try_from(n).ok()
    }

    /// Puts a type on top where fewer than `limit` are held.
    pub(crate) fn push(&mut self, limit: usize, t: Ty) -> Option<()>
        requires { limit ≤ max_height }
        ensures told { MatchOption result (nat_lt (length (frame_types self.old)) limit ≡ false) (λ _. nat_lt (length (frame_types self.old)) limit ≡ true) }
        ensures pushed { MatchOption result (frame_types self.new ≡ frame_types self.old) (λ _. frame_types self.new ≡ t ∷ frame_types self.old) }
        ensures registers { self.new.registers ≡ self.old.registers }
    {
        if self.height >= limit {
            return None;
        }
        let mut stack = Stack::over(&mut self.cells, self.height);
        stack.push(u16::from(t)).ok()?;
        self.height = stack.height();
        Some(())
    }

    /// The type with `i` types above it.
    pub(crate) fn below(&self, i: usize) -> Option<Ty>
        ensures { SeenType (frame_types self.now) i result }
    {
        // A stack may write its cells, so it looks at a copy.
        let mut cells = self.cells;
        let stack = Stack::over(&mut cells, self.height);
        let n = stack.below(i)?;
        Ty::try_from(n).ok()
    }

    /// Lets the `n` topmost types go.
    pub(crate) fn discard(&mut self, n: usize)
        requires { n ≤ length (frame_types self.old) }
        ensures left { frame_types self.new ≡ drop n (frame_types self.old) }
        ensures registers { self.new.registers ≡ self.old.registers }
    {
        self.height -= n;
    }

    /// Lets all but the `depth` lowest types go.
    pub(crate) fn cut(&mut self, depth: usize)
        requires { depth ≤ length (frame_types self.old) }
        ensures left { frame_types self.new ≡ lowest depth (frame_types self.old) }
        ensures registers { self.new.registers ≡ self.old.registers }
    {
        self.height = depth;
    }

    /// The type of register `n` of the first `count`, where it exists and is usable.
    pub(crate) fn load(&self, count: usize, n: usize) -> Option<Ty>
        requires { count ≤ max_registers }
        ensures { result ≡ loaded (frame_cells count self.now) n }
    {
        let cell = self.registers[0..count].get(n)?;
        cell_type(*cell)
    }

    /// Puts a type into register `n` of the first `count`. `None`, and nothing changes, where there is no such register.
    pub(crate) fn store(&mut self, count: usize, n: usize, t: Ty) -> Option<()>
        requires narrow { count ≤ max_registers }
        requires told { type_number t < absent }
        ensures there { MatchOption result (nat_lt n (length (frame_cells count self.old)) ≡ false) (λ _. nat_lt n (length (frame_cells count self.old)) ≡ true) }
        ensures stored { MatchOption result (frame_cells count self.new ≡ frame_cells count self.old) (λ _. frame_cells count self.new ≡ slice_set (frame_cells count self.old) n (usable t)) }
        ensures types { frame_types self.new ≡ frame_types self.old }
    {
        if n >= count {
            return None;
        }
        self.registers[n] = u16::from(t);
        Some(())
    }
}
