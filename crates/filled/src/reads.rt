//! What is read of a list.

ghost use Rattle.std.specs.Prelude.{◌≡◌, ◌≤◌, length, slice_get};
ghost use Rattle.filled.specs.Lists.{kept};

use super::Filled;

impl<T, const N: usize> Filled<T, N> {
    /// How many items there are.
    pub fn len(&self) -> usize
        ensures value { result ≡ length (kept self.now) }
        ensures counted { result ≡ self.now.count }
        ensures fits { result ≤ N }
    {
        self.count
    }

    /// The items, in their order.
    pub fn as_slice(&self) -> &[T]
        ensures { result.now ≡ kept self.now }
    {
        &self.rows[..self.count]
    }
}

impl<T: Copy, const N: usize> Filled<T, N> {
    /// The item at an index, if there is one.
    pub fn get(&self, index: usize) -> Option<T>
        ensures { result ≡ slice_get (kept self.now) index }
    {
        self.as_slice().get(index).copied()
    }
}
