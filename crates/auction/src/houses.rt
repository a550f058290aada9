//! What each of the two houses has.

ghost use Rattle.std.specs.Prelude.{◌≡◌};
ghost use Rattle.std.specs.Borrow.{sem};
ghost use Rattle.auction.specs.Houses.{by_house};
ghost use Rattle.auction.specs.PerHouse.{LendsOne};

use crate::House;

/// A value for each house.
#[derive(Clone, Copy, PartialEq, Eq, Debug)]
pub struct PerHouse<T> {
    pub zero: T,
    pub one: T,
}

impl<T> PerHouse<T> {
    /// The value of a house.
    pub fn of(&self, house: House) -> &T
        ensures { result.now ≡ by_house self.now.zero self.now.one house }
    {
        match house {
            House::Zero => &self.zero,
            House::One => &self.one,
        }
    }

    /// The value of a house, to be altered; that of the other house stays.
    pub fn of_mut(&mut self, house: House) -> &mut T
        ensures* lends { sem 𝓛 (LendsOne T.row self.entry house result) }
        ensures value { result.now ≡ by_house self.old.zero self.old.one house }
    {
        match house {
            House::Zero => &mut self.zero,
            House::One => &mut self.one,
        }
    }
}
