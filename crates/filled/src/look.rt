// What a list holds.
ghost use Rattle.std.specs.Prelude.{◌≡◌, ◌-◌, ◌≤◌, ◌==◌, length};
ghost use Rattle.std.specs.List.{slice_get};
ghost use Rattle.filled.specs.Items.{items_of};

use crate::filled::Filled;

impl<T: Copy, const N: usize> Filled<T, N> {
    /// How many items there are.
    #[inline]
    pub fn len(&self) -> usize
        ensures count { result ≡ length (items_of self.now) }
        ensures within { result ≤ N }
    {
        self.len
    }

    /// Whether there is no item.
    #[inline]
    pub fn is_empty(&self) -> bool
        ensures { result ≡ (length (items_of self.now) == 0) }
    {
        self.len == 0
    }

    /// Whether every place is filled.
    #[inline]
    pub fn is_full(&self) -> bool
        ensures { result ≡ (length (items_of self.now) == N) }
    {
        self.len == N
    }

    /// The items.
    #[inline]
    pub fn as_slice(&self) -> &[T]
        ensures items { result.now ≡ items_of self.now }
        ensures within { length result.now ≤ N }
    {
        &self.cells[..self.len]
    }
}

impl<T: Copy, const N: usize> Filled<T, N> {
    /// The item at `i`, if there is one.
    #[inline]
    pub fn get(&self, i: usize) -> Option<T>
        ensures { result ≡ slice_get (items_of self.now) i }
    {
        self.as_slice().get(i).copied()
    }

    /// The last item, if there is one.
    #[inline]
    pub fn last(&self) -> Option<T>
        ensures { result ≡ slice_get (items_of self.now) (length (items_of self.now) - 1) }
    {
        self.as_slice().last().copied()
    }
}
