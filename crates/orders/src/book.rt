//! The three lists of an hour's orders, kept together.

ghost use Rattle.std.specs.Prelude.{◌≡◌, ⊤};

use std::alloc::AllocError;

/// The orders of an hour: three lists, each of its own kind.
#[derive(Drop)]
pub struct Book<X, Y, W> {
    pub first: X,
    pub second: Y,
    pub third: W,
}

/// The orders of an hour, whose lists are lent: nobody has to move them to have a sheet judged.
pub struct LentBook<'a, X, Y, W> {
    pub first: &'a X,
    pub second: &'a Y,
    pub third: &'a W,
}

// By hand: what is lent can be lent again, also where the lists themselves cannot be copied.
impl<'a, X, Y, W> Clone for LentBook<'a, X, Y, W> {
    ghost is_clone = { λ book copy. copy ≡ book };

    ghost is_infallible = { λ _. ⊤ };

    fn clone(&self) -> Result<LentBook<'a, X, Y, W>, AllocError> {
        Ok(*self)
    }
}

impl<'a, X, Y, W> Copy for LentBook<'a, X, Y, W> {}
