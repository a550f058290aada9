//! Orders with one zone, and what tells one side of the trade from the other.

ghost use Rattle.std.specs.Prelude.{◌≡◌, ℕ, Decides};
ghost use Rattle.auction.specs.Orders.{Order, Sound, Content};
ghost use Rattle.orders.specs.Reads.{array_prices};
ghost use Rattle.rows.specs.Bounds.{InRange};

mod kind;

use super::Terms;
use auction::bounds::MOST_ZONES;
use std::marker::PhantomData;

/// An order with one zone, on one side of the trade.
#[derive(Clone, Copy)]
pub struct ZoneOrder<S> {
    pub zone: u8,
    pub terms: Terms,
    pub side: PhantomData<S>,
}

/// A side of the trade: how an order with one zone is worth its price, and which way its energy goes.
pub trait Side: Copy {
    /// The order of this side with a zone, a price and a largest quantity.
    ghost meant: { (zone price largest : ℕ) → Order };

    /// What a quantity is worth, in thousandths of a cent.
    fn worth(order: &ZoneOrder<Self>, quantity: u32) -> i64
        ensures { result ≡ (meant order.now.zone order.now.terms.price order.now.terms.quantity).worth quantity };

    /// What a quantity feeds into a zone, in kWh.
    fn injection(order: &ZoneOrder<Self>, quantity: u32, zone: usize) -> i64
        ensures { result ≡ (meant order.now.zone order.now.terms.price order.now.terms.quantity).injection quantity zone };

    /// Does no other possible quantity gain more at these zone prices?
    fn content(order: &ZoneOrder<Self>, quantity: u32, prices: &[i32; MOST_ZONES]) -> bool
        ensures { Decides result (Content (array_prices prices.now) (meant order.now.zone order.now.terms.price order.now.terms.quantity) quantity) };

    ghost sound: { (zone price quantity : ℕ) → InRange price quantity → Sound (meant zone price quantity) };

    ghost sized: { (zone price quantity : ℕ) → (meant zone price quantity).largest ≡ quantity };

    ghost placed: { (zone price quantity : ℕ) → (meant zone price quantity).last_zone ≡ zone };
}
