//! What tells one kind of order from another, where an order has a price, a quantity and at most two zones.

ghost use Rattle.std.specs.Prelude.{◌≡◌, ℕ, Decides, MatchOption};
ghost use Rattle.auction.specs.Orders.{Order, Sound, Content};
ghost use Rattle.auction.specs.Refusals.{Answered, Always};
ghost use Rattle.orders.specs.Reads.{Answers, array_prices};
ghost use Rattle.rows.specs.Bounds.{InRange};
ghost use Rattle.rows.specs.Rows.{Ranged};
ghost use Rattle.listed.specs.Entries.{ByNumbers, order_by};

use auction::bounds::MOST_ZONES;
use auction::{Fault, House};
use rows::Row;

/// An order of one kind. It is made of a row whose price and quantity are in range, and of no other, so what it is asked needs no premise. A quantity beyond the largest is worth nothing, feeds nothing and leaves nobody content.
pub trait Kind: Copy {
    /// What a house hands in to enter an order of this kind.
    type Wish;

    ghost meaning: { Self → Order };

    /// The order that the numbers of a row mean.
    ghost meant: { ByNumbers };

    /// The order that a wish means.
    ghost wished: { Self.Wish → Order };

    /// Whether all that the wish names is there in a network with so many zones.
    ghost found: { Self.Wish → ℕ → Type 0 };

    /// Whether the wish's numbers are in range.
    ghost fitting: { Self.Wish → Type 0 };

    /// The order of a row, if the row's price and quantity are in range.
    fn of_row(row: &Row) -> Option<Self>
        ensures { MatchOption result (Ranged row.now → ⊥) (λ order. Ranged row.now × (meaning order ≡ order_by meant row.now)) };

    /// The row of the order that a house wishes for, in a network with so many zones.
    fn row(house: House, wish: Self::Wish, zones: usize) -> Result<Row, Fault>
        ensures { Answered result (found wish zones) (fitting wish) Always (λ row. Ranged row × (row.house ≡ house) × (order_by meant row ≡ wished wish)) Always };

    /// The largest quantity, in kWh.
    fn largest(&self) -> u32
        ensures { result ≡ (meaning self.now).largest };

    /// The highest zone that it has.
    fn last_zone(&self) -> u8
        ensures { result ≡ (meaning self.now).last_zone };

    /// What a quantity is worth, in thousandths of a cent.
    fn worth(&self, quantity: u32) -> i64
        ensures { Answers (meaning self.now) quantity ((meaning self.now).worth quantity) result };

    /// What a quantity feeds into a zone, in kWh.
    fn injection(&self, quantity: u32, zone: usize) -> i64
        ensures { Answers (meaning self.now) quantity ((meaning self.now).injection quantity zone) result };

    /// Does no other possible quantity gain more at these zone prices?
    fn content(&self, quantity: u32, prices: &[i32; MOST_ZONES]) -> bool
        ensures { Decides result (Content (array_prices prices.now) (meaning self.now) quantity) };

    ghost sound: { (first second price quantity : ℕ) → InRange price quantity → Sound (meant first second price quantity) };

    ghost sized: { (first second price quantity : ℕ) → (meant first second price quantity).largest ≡ quantity };
}
