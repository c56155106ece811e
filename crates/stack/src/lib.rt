//! One bounded stack over cells that are handed in, for every kind of cell.
#![tactic(auto)]

ghost use Rattle.std.specs.Prelude.{◌≡◌, ◌≤◌, min, length};
ghost use Rattle.stack.specs.Stacked.{Pushed, Popped, Seen, Discarded, Replaced};

/// Every cell is taken: a push was refused, and nothing changed.
#[derive(Clone, Copy, PartialEq, Eq, Debug)]
pub struct Full;

/// Fewer cells are held than were to go: a call was refused, and nothing changed.
#[derive(Clone, Copy, PartialEq, Eq, Debug)]
pub struct TooFew;

/// A stack in the first `height` of its cells, the bottom first.
#[derive(Drop)]
pub struct Stack<'a, T> {
    // Lent, since each user has cells of its own and memory is fixed.
    cells: &'a mut [T],
    height: usize,
    ghost within: { height ≤ length cells.now },
}

impl<'a, T: Copy> Stack<'a, T> {
    /// The stack of the first `height` cells, or of all cells where there are fewer.
    pub fn over(cells: &'a mut [T], height: usize) -> Stack<'a, T>
        ensures cells { result.cells.now ≡ cells.old }
        ensures height { result.height ≡ min height (length cells.old) }
        ensures same { result.cells.ghost_name ≡ cells.entry.ghost_name }
    {
        let height = height.min(cells.len());
        Stack { cells, height }
    }

    /// How many cells are held.
    pub fn height(&self) -> usize
        ensures { result ≡ self.now.height }
    {
        self.height
    }

    /// Puts `x` on top. `Full` where every cell is taken.
    pub fn push(&mut self, x: T) -> Result<(), Full>
        ensures pushed { Pushed self.old.cells.now self.old.height x self.new.cells.now self.new.height result }
        ensures same { self.new.cells.ghost_name ≡ self.old.cells.ghost_name }
    {
        let h = self.height;
        if h < self.cells.len() {
            self.cells[h] = x;
            self.height = h + 1;
            Ok(())
        } else {
            Err(Full)
        }
    }

    /// Takes the top. `None`, and nothing changes, where nothing is held.
    pub fn pop(&mut self) -> Option<T>
        ensures popped { Popped self.old.cells.now self.old.height self.new.cells.now self.new.height result }
        ensures same { self.new.cells.ghost_name ≡ self.old.cells.ghost_name }
    {
        let x = self.peek()?;
        self.height -= 1;
        Some(x)
    }

    /// The top, or `None` where nothing is held.
    pub fn peek(&self) -> Option<T>
        ensures { Seen self.now.cells.now self.now.height 0 result }
    {
        self.below(0)
    }

    /// The cell with `i` cells above it, or `None` where no more than `i` are held.
    pub fn below(&self, i: usize) -> Option<T>
        ensures { Seen self.now.cells.now self.now.height i result }
    {
        let h = self.height;
        if i >= h {
            return None;
        }
        let cells: &[T] = self.cells;
        Some(cells[h - 1 - i])
    }

    /// Lets the `n` topmost cells go. `TooFew` where fewer are held.
    pub fn discard(&mut self, n: usize) -> Result<(), TooFew>
        ensures discarded { Discarded self.old.cells.now self.old.height n self.new.cells.now self.new.height result }
        ensures same { self.new.cells.ghost_name ≡ self.old.cells.ghost_name }
    {
        let h = self.height;
        if n > h {
            return Err(TooFew);
        }
        self.height = h - n;
        Ok(())
    }

    /// Puts `x` in place of the top. `TooFew` where nothing is held.
    pub fn replace(&mut self, x: T) -> Result<(), TooFew>
        ensures replaced { Replaced self.old.cells.now self.old.height x self.new.cells.now self.new.height result }
        ensures same { self.new.cells.ghost_name ≡ self.old.cells.ghost_name }
    {
        let h = self.height;
        if h == 0 {
            return Err(TooFew);
        }
        self.cells[h - 1] = x;
        Ok(())
    }
}

#[cfg(test)]
mod tests;
