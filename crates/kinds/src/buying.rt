//! Bids: energy taken at a price.

ghost use Rattle.std.specs.Prelude.{◌≡◌, refl};
ghost use Rattle.kinds.specs.Kinds.{bid};
ghost use Rattle.kinds.specs.Slopes.{bid_slope};
ghost use Rattle.kinds.specs.Sounds.{bid_sound};

use super::linear::{content_at, fed, money, order_price, zone_price};
use super::{Side, ZoneOrder};
use auction::bounds::MOST_ZONES;

/// The side that takes energy from its zone, which is worth its price.
#[derive(Clone, Copy)]
pub struct Buying;

/// An order that takes energy from its zone and is worth its price, in cents per MWh. Its quantity is the largest, in kWh.
pub type Bid = ZoneOrder<Buying>;

// Of this side alone, as the content is: the slopes and the laws of gain differ.
/// What a kWh of a bid gains at these zone prices.
fn slope(order: &Bid, prices: &[i32; MOST_ZONES]) -> i64
    ensures { result ≡ bid_slope prices.now order.now.zone order.now.terms.price }
{
    order_price(order.terms.price) - zone_price(prices, order.zone)
}

impl Side for Buying {
    ghost meant = { bid };

    ghost sound = { bid_sound };

    ghost sized = { λ _ _ _. refl };

    ghost placed = { λ _ _ _. refl };

    fn worth(order: &Bid, quantity: u32) -> i64 {
        money(order.terms, quantity)
    }

    fn injection(order: &Bid, quantity: u32, zone: usize) -> i64 {
        -fed(quantity, order.zone, zone)
    }

    fn content(order: &Bid, quantity: u32, prices: &[i32; MOST_ZONES]) -> bool {
        content_at(order.terms.quantity, quantity, slope(order, prices))
    }
}
