// The type alone, so that the specs may name it.
ghost use Rattle.std.specs.Prelude.{◌≡◌, ◌≤◌, ⊤};

use std::alloc::AllocError;

// The items are the first `count` of the cells.
pub struct Bounded<T, const N: usize> {
    pub(crate) cells: [T; N],
    pub(crate) count: usize,
    ghost within: { count ≤ N },
}

// By hand: the derive is refused where a ghost field stands beside a type parameter.
impl<T: Copy, const N: usize> Copy for Bounded<T, N> {}

impl<T: Copy, const N: usize> Clone for Bounded<T, N> {
    ghost is_clone = { λ x y. y ≡ x };

    ghost is_infallible = { λ _. ⊤ };

    fn clone(&self) -> Result<Self, AllocError> {
        Ok(*self)
    }
}
