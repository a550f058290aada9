//! Offers: energy fed in at a price.

ghost use Rattle.std.specs.Prelude.{◌≡◌, refl};
ghost use Rattle.kinds.specs.Kinds.{offer};
ghost use Rattle.kinds.specs.Slopes.{offer_slope};
ghost use Rattle.kinds.specs.Sounds.{offer_sound};

use super::linear::{content_at, fed, money, order_price, zone_price};
use super::{Side, ZoneOrder};
use auction::bounds::MOST_ZONES;

/// The side that feeds energy into its zone, which is worth minus its price.
#[derive(Clone, Copy)]
pub struct Selling;

/// An order that feeds energy into its zone and is worth minus its price, in cents per MWh. Its quantity is the largest, in kWh.
pub type Offer = ZoneOrder<Selling>;

// Of this side alone, as the content is: the slopes and the laws of gain differ.
/// What a kWh of an offer gains at these zone prices.
fn slope(order: &Offer, prices: &[i32; MOST_ZONES]) -> i64
    ensures { result ≡ offer_slope prices.now order.now.zone order.now.terms.price }
{
    zone_price(prices, order.zone) - order_price(order.terms.price)
}

impl Side for Selling {
    ghost meant = { offer };

    ghost sound = { offer_sound };

    ghost sized = { λ _ _ _. refl };

    ghost placed = { λ _ _ _. refl };

    fn worth(order: &Offer, quantity: u32) -> i64 {
        -money(order.terms, quantity)
    }

    fn injection(order: &Offer, quantity: u32, zone: usize) -> i64 {
        fed(quantity, order.zone, zone)
    }

    fn content(order: &Offer, quantity: u32, prices: &[i32; MOST_ZONES]) -> bool {
        content_at(order.terms.quantity, quantity, slope(order, prices))
    }
}
