// A list of at most `N` items, which lie in the value itself.
ghost use Rattle.std.specs.Prelude.{◌≡◌, ◌≤◌, length, ⊤};

use std::alloc::AllocError;

/// Up to `N` items. What lies in the places behind them is no item, and no clause speaks of it.
pub struct Filled<T, const N: usize> {
    pub(crate) cells: [T; N],
    pub(crate) len: usize,
    ghost within: { len ≤ N },
    ghost whole: { length cells ≡ N },
}

impl<T: Copy, const N: usize> Copy for Filled<T, N> {}

impl<T: Copy, const N: usize> Clone for Filled<T, N> {
    ghost is_clone = { λ x y. y ≡ x };

    ghost is_infallible = { λ _. ⊤ };

    fn clone(&self) -> Result<Self, AllocError> {
        Ok(*self)
    }
}

/// Every place is filled.
#[derive(Clone, Copy, Debug, PartialEq, Eq)]
pub struct Full;
