//! What is asked of each order at its quantity, whatever its kind.

ghost use Rattle.std.specs.Prelude.{◌≡◌, ℕ, Decides};
ghost use Rattle.auction.specs.declared.Broken.{Broken};
ghost use Rattle.auction.specs.declared.Broken.TheVariants.{Quantity, Contentment};
ghost use Rattle.auction.specs.Hours.{Entry, Takes};
ghost use Rattle.orders.specs.Reads.{array_prices, entry};
ghost use Rattle.places.specs.Places.{AtEase};

use auction::Broken;
use auction::bounds::MOST_ZONES;
use orders::OrderList;

/// A rule that is put at each order.
pub(crate) trait Rule {
    /// What it asks of an order at its quantity.
    ghost asks: { Self → Entry → ℕ → Type 0 };

    /// The refusal that names it, by list and number of the order.
    ghost named: { Self → ℕ → ℕ → Broken };

    /// Does the order with this number meet it at this quantity?
    fn met<L: OrderList>(&self, list: &L, number: usize, quantity: u32) -> bool
        ensures { Decides result (asks self.now (entry (L.OrderList.entries list.now) number) quantity) };

    /// The rule, broken at the order with this number in this list.
    fn broken(&self, list: u8, number: u16) -> Broken
        ensures { result ≡ named self.now list number };
}

/// A standing order takes what it may, a withdrawn one nothing.
#[derive(Clone, Copy)]
pub(crate) struct Possible;

impl Rule for Possible {
    ghost asks = { λ _ e q. Takes e q };

    ghost named = { λ _. Quantity };

    fn met<L: OrderList>(&self, list: &L, number: usize, quantity: u32) -> bool {
        if list.standing(number) {
            return quantity <= list.largest(number);
        }
        quantity == 0
    }

    fn broken(&self, list: u8, number: u16) -> Broken {
        Broken::Quantity { list, number }
    }
}

/// A standing order is content with its quantity at these zone prices.
#[derive(Clone, Copy)]
pub(crate) struct Content<'a> {
    pub(crate) prices: &'a [i32; MOST_ZONES],
}

impl<'a> Rule for Content<'a> {
    ghost asks = { λ c e q. AtEase (array_prices c.prices.now) e q };

    ghost named = { λ _. Contentment };

    fn met<L: OrderList>(&self, list: &L, number: usize, quantity: u32) -> bool {
        if list.standing(number) {
            return list.content(number, quantity, self.prices);
        }
        true
    }

    fn broken(&self, list: u8, number: u16) -> Broken {
        Broken::Contentment { list, number }
    }
}
