//! What is added up over the orders of a book, whatever their kind.

ghost use Rattle.std.proofs.Common.{rules};
ghost use Rattle.std.specs.Prelude.{◌≡◌, ℕ, ◌*◌, ◌^◌, ◌<◌, ◌≤◌, length, ℤ, unsigned_abs};
ghost use Rattle.auction.specs.Bounds.{most_price};
ghost use Rattle.auction.specs.Hours.{Entry};
ghost use Rattle.auction.specs.Houses.{house_number};
ghost use Rattle.auction.specs.Orders.{Possible};
ghost use Rattle.orders.specs.Reads.{array_prices, entry};
ghost use Rattle.judgement.specs.Parts.{entry_injection, entry_worth, own_charge};

use crate::money::proceeds;
use auction::House;
use auction::bounds::MOST_ZONES;
use orders::OrderList;

/// Something that each order has at its quantity, and that is added up.
pub(crate) trait Measure {
    /// What an order has at a quantity.
    ghost term: { Self → Entry → ℕ → ℤ };

    /// How much that is at most for each kWh.
    ghost rate: { Self → ℕ };

    /// What the order with this number has at a quantity that is possible for it.
    fn of<L: OrderList>(&self, list: &L, number: usize, quantity: u32) -> i64
        requires { (number < length (L.OrderList.entries list.now)) × (Possible (entry (L.OrderList.entries list.now) number).order quantity) }
        ensures value { result ≡ term self.now (entry (L.OrderList.entries list.now) number) quantity }
        ensures bound { unsigned_abs result ≤ rate self.now * quantity };

    ghost modest: { (m : Self) → rate m ≤ 2 ^ 32 };
}

/// What an order is worth, in thousandths of a cent.
#[derive(Clone, Copy)]
pub(crate) struct Worth;

impl Measure for Worth {
    ghost term = { λ _. entry_worth };

    ghost rate = { λ _. most_price };

    ghost modest = { λ _. Prim.search rules };

    fn of<L: OrderList>(&self, list: &L, number: usize, quantity: u32) -> i64 {
        list.worth(number, quantity)
    }
}

/// What an order feeds into a zone, in kWh.
#[derive(Clone, Copy)]
pub(crate) struct Injection {
    pub(crate) zone: usize,
}

impl Measure for Injection {
    ghost term = { λ m. entry_injection m.zone };

    ghost rate = { λ _. 2 };

    ghost modest = { λ _. Prim.search rules };

    fn of<L: OrderList>(&self, list: &L, number: usize, quantity: u32) -> i64 {
        list.injection(number, quantity, self.zone)
    }
}

/// What an order pays at these zone prices if it is this house's, in millionths of a cent.
#[derive(Clone, Copy)]
pub(crate) struct Charge<'a> {
    pub(crate) prices: &'a [i32; MOST_ZONES],
    pub(crate) house: House,
}

impl<'a> Measure for Charge<'a> {
    ghost term = { λ m. own_charge (array_prices m.prices.now) (house_number m.house) };

    ghost rate = { λ _. 4294967296 };

    ghost modest = { λ _. Prim.search rules };

    fn of<L: OrderList>(&self, list: &L, number: usize, quantity: u32) -> i64 {
        if list.house(number) != self.house {
            return 0;
        }
        -proceeds(list, number, quantity, self.prices)
    }
}
