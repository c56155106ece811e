// How a list begins and changes.
ghost use Rattle.std.specs.Prelude.{◌≡◌, ◌+◌, ◌-◌, ◌<◌, ◌≤◌, ◌↔◌, [], ◌∷◌, ◌++◌, length, take, slice_set, IsOk, OnOk, OnErr};
ghost use Rattle.std.specs.List.{slice_get};
ghost use Rattle.filled.specs.Items.{items_of};

use crate::filled::{Filled, Full};

impl<T: Copy, const N: usize> Filled<T, N> {
    /// A list of no items, with `blank` in each place.
    #[inline]
    pub fn new(blank: T) -> Self
        ensures { items_of result ≡ [] }
    {
        Filled {
            cells: [blank; N],
            len: 0,
        }
    }

    /// Puts `x` behind the items. Nothing changes where every place is filled.
    #[inline]
    pub fn push(&mut self, x: T) -> Result<(), Full>
        ensures room { IsOk result ↔ (length (items_of self.old) < N) }
        ensures pushed { OnOk result (items_of self.new ≡ items_of self.old ++ x ∷ []) }
        ensures fits { length (items_of self.old) < N → items_of self.new ≡ items_of self.old ++ x ∷ [] }
        ensures kept { OnErr result (self.new ≡ self.old) }
    {
        let at = self.len;
        if at == N {
            return Err(Full);
        }
        self.cells[at] = x;
        self.len = at + 1;
        Ok(())
    }

    /// Puts these items behind those that there are. Nothing changes where not all of them have a place.
    #[inline]
    pub fn extend_from_slice(&mut self, more: &[T]) -> Result<(), Full>
        ensures room { IsOk result ↔ (length (items_of self.old) + length more.now ≤ N) }
        ensures extended { OnOk result (items_of self.new ≡ items_of self.old ++ more.now) }
        ensures kept { OnErr result (self.new ≡ self.old) }
    {
        let at = self.len;
        if more.len() > N - at {
            return Err(Full);
        }
        let end = at + more.len();
        let cells: &mut [T] = &mut self.cells;
        cells[at..end].copy_from_slice(more);
        self.len = end;
        Ok(())
    }

    /// Takes the last item, if there is one.
    #[inline]
    pub fn pop(&mut self) -> Option<T>
        ensures last { result ≡ slice_get (items_of self.old) (length (items_of self.old) - 1) }
        ensures rest { items_of self.new ≡ take (length (items_of self.old) - 1) (items_of self.old) }
    {
        let last = self.last()?;
        self.len -= 1;
        Some(last)
    }

    /// Puts `x` in place of the item at `i`, and hands that back. Nothing changes where there is none.
    #[inline]
    pub fn replace(&mut self, i: usize, x: T) -> Option<T>
        ensures before { result ≡ slice_get (items_of self.old) i }
        ensures after { items_of self.new ≡ slice_set (items_of self.old) i x }
    {
        if i >= self.len {
            return None;
        }
        let before = self.cells[i];
        self.cells[i] = x;
        Some(before)
    }

    /// Lets go of the items from `len` on.
    #[inline]
    pub fn truncate(&mut self, len: usize)
        ensures { items_of self.new ≡ take len (items_of self.old) }
    {
        self.len = self.len.min(len);
    }

    /// Lets go of all items.
    #[inline]
    pub fn clear(&mut self)
        ensures { items_of self.new ≡ [] }
    {
        self.len = 0;
    }
}
