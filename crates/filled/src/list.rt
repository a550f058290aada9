//! Some items, one after the other, with place for so many.

ghost use Rattle.std.specs.Prelude.{◌≡◌, ◌≤◌, length, ⊤};

use std::alloc::AllocError;

// No Model: as a list it would forget the unused places, and a value that is copied may not forget.
/// Up to `N` items. The places past the count hold any item.
#[derive(Drop)]
pub struct Filled<T, const N: usize> {
    pub(crate) count: usize,
    pub(crate) rows: [T; N],
    ghost few: { count ≤ N },
    ghost full: { length rows ≡ N },
}

// By hand: Clone is not derived for a struct with a ghost field and a type parameter.
impl<T: Copy, const N: usize> Clone for Filled<T, N> {
    ghost is_clone = { λ list copy. copy ≡ list };

    ghost is_infallible = { λ _. ⊤ };

    fn clone(&self) -> Result<Filled<T, N>, AllocError> {
        Ok(*self)
    }
}

impl<T: Copy, const N: usize> Copy for Filled<T, N> {}
