//! Bids in two steps.

ghost use Rattle.std.specs.Prelude.{◌≡◌, ◌*◌, ◌/◌, ◌<◌, ◌≤◌, pos, Decides, refl};
ghost use Rattle.stepped.specs.Steps.{stepped, in_steps, ContentInSteps};
ghost use Rattle.stepped.specs.TwoSteps.{stepped_sound};

use auction::bounds::MOST_ZONES;
use kinds::{Side, Terms, ZoneOrder, fed, zone_price};

/// The side that takes energy from its zone, where the first half is worth its price and the rest half of it.
#[derive(Clone, Copy)]
pub struct InSteps;

/// A bid that wants the first half of its quantity, in kWh, at its price, in cents per MWh, and the rest at half of that price.
pub type Stepped = ZoneOrder<InSteps>;

/// What a quantity is worth, in thousandths of a cent.
fn steps_worth(terms: Terms, quantity: u32) -> i64
    ensures { result ≡ pos (in_steps (terms.quantity / 2) terms.price (terms.price / 2) quantity) }
{
    let first = quantity.min(terms.quantity / 2);
    let rest = quantity - first;
    let low = terms.price / 2;
    // With `from` in place of `as` the prover loses the bounds of the two products.
    (terms.price as u64 * first as u64 + low as u64 * rest as u64) as i64
}

/// Is such a bid content with a quantity, where a kWh of the first step gains `high` and one beyond it `low`?
fn content_in_steps(largest: u32, quantity: u32, high: i64, low: i64) -> bool
    ensures { Decides result (ContentInSteps (largest / 2) largest quantity high low) }
{
    let step = largest / 2;
    quantity <= largest
        && (quantity == 0 || high >= 0)
        && (quantity <= step || low >= 0)
        && (quantity >= step || high <= 0)
        && (quantity == largest || low <= 0)
}

impl Side for InSteps {
    ghost meant = { stepped };

    ghost sound = { stepped_sound };

    ghost sized = { λ _ _ _. refl };

    ghost placed = { λ _ _ _. refl };

    fn worth(order: &Stepped, quantity: u32) -> i64 {
        steps_worth(order.terms, quantity)
    }

    fn injection(order: &Stepped, quantity: u32, zone: usize) -> i64 {
        -fed(quantity, order.zone, zone)
    }

    fn content(order: &Stepped, quantity: u32, prices: &[i32; MOST_ZONES]) -> bool {
        let price = zone_price(prices, order.zone);
        let high = 1000 * i64::from(order.terms.price) - price;
        let low = 1000 * i64::from(order.terms.price / 2) - price;
        content_in_steps(order.terms.quantity, quantity, high, low)
    }
}
