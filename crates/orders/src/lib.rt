//! A list of orders of one kind, each asked for by its number.
#![tactic(auto)]

ghost use Rattle.std.specs.Prelude.{◌≡◌, ℕ, ◌<◌, ◌≤◌, true, List, [], ◌∷◌, ◌++◌, length, Decides};
ghost use Rattle.auction.specs.Bounds.{most_orders, most_kwh};
ghost use Rattle.auction.specs.Houses.{house_number};
ghost use Rattle.auction.specs.Hours.{Entry};
ghost use Rattle.auction.specs.Orders.{Order, Sound};
ghost use Rattle.auction.specs.Refusals.{Answered};
ghost use Rattle.orders.specs.Reads.{entry, Answers, ContentAt, standing_kwh, without, PlaceLeft};

mod book;

pub use auction::bounds::MOST_ZONES;
use auction::{Fault, House};
pub use book::{Book, LentBook};

/// What the box asks of a list of orders. A query never refuses and alters nothing; beyond the list it answers 0, false or not content.
pub trait OrderList {
    /// What a house hands in to enter an order of this kind.
    type Wish;

    ghost entries: { Self → List Entry };

    /// The order that a wish means.
    ghost order: { Self.Wish → Order };

    /// Whether all that the wish names is there in a network with so many zones.
    ghost exists: { Self.Wish → ℕ → Type 0 };

    /// Whether the wish's numbers are in range.
    ghost ranged: { Self.Wish → Type 0 };

    // The order that is asked for is written out in each clause: a name for it and its field would hide which field is read.

    /// How many orders were entered.
    fn count(&self) -> usize
        ensures { result ≡ length (entries self.now) };

    /// Whose order it is.
    fn house(&self, number: usize) -> House
        ensures { house_number result ≡ (entry (entries self.now) number).house };

    /// Was it entered, and not withdrawn since?
    fn standing(&self, number: usize) -> bool
        ensures { result ≡ (entry (entries self.now) number).standing };

    /// The largest quantity, in kWh.
    fn largest(&self, number: usize) -> u32
        ensures { result ≡ (entry (entries self.now) number).order.largest };

    /// The highest zone that it has.
    fn last_zone(&self, number: usize) -> u8
        ensures { result ≡ (entry (entries self.now) number).order.last_zone };

    /// What a quantity is worth, in thousandths of a cent.
    fn worth(&self, number: usize, quantity: u32) -> i64
        ensures { Answers (entry (entries self.now) number).order quantity ((entry (entries self.now) number).order.worth quantity) result };

    /// What a quantity feeds into a zone, in kWh.
    fn injection(&self, number: usize, quantity: u32, zone: usize) -> i64
        ensures { Answers (entry (entries self.now) number).order quantity ((entry (entries self.now) number).order.injection quantity zone) result };

    /// Does no other possible quantity gain more at these zone prices?
    fn content(&self, number: usize, quantity: u32, prices: &[i32; MOST_ZONES]) -> bool
        ensures { Decides result (ContentAt (entries self.now) number quantity prices.now) };

    /// The largest quantities of the standing orders, all together.
    fn standing_kwh(&self) -> u32
        ensures { result ≡ standing_kwh (entries self.now) };

    /// Enters the order that a house wishes for, behind the others, in a network with so many zones and with so many kWh standing in other lists.
    fn enter(
        &mut self,
        house: House,
        wish: Self::Wish,
        zones: usize,
        elsewhere: u32,
    ) -> Result<(), Fault>
        ensures { Answered result (exists wish zones) (ranged wish) (PlaceLeft (entries self.old) elsewhere (order wish).largest)
            (λ _. entries self.new ≡ entries self.old ++ record { house = house_number house; standing = true; order = order wish } ∷ [])
            (entries self.new ≡ entries self.old) };

    /// Ends the standing of an order.
    fn withdraw(&mut self, number: usize)
        ensures { entries self.new ≡ without (entries self.old) number };

    /// Forgets all orders, for a new hour.
    fn clear(&mut self)
        ensures { entries self.new ≡ [] };

    ghost few: { (s : Self) → length (entries s) ≤ most_orders };

    ghost modest: { (s : Self) → standing_kwh (entries s) ≤ most_kwh };

    ghost housed: { (s : Self) (n : ℕ) → (entry (entries s) n).house < 2 };

    ghost sound: { (s : Self) (n : ℕ) → n < length (entries s) → Sound (entry (entries s) n).order };
}
