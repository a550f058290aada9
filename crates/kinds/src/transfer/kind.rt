//! What is asked of transfers.

ghost use Rattle.std.specs.Prelude.{◌≡◌, MatchOption, refl};
ghost use Rattle.rows.specs.Bounds.{InRange};
ghost use Rattle.rows.specs.Rows.{Ranged};
ghost use Rattle.kinds.specs.Kinds.{transfer, TwoZones};
ghost use Rattle.kinds.specs.Slopes.{transfer_slope};
ghost use Rattle.kinds.specs.Sounds.{transfer_sound};

use super::super::Terms;
use super::super::linear::{content_at, fed, money, order_price, zone_price};
use super::Transfer;
use auction::bounds::MOST_ZONES;
use auction::{Fault, House};
use listed::Kind;
use rows::Row;

/// The zone that a transfer feeds and the one from which it takes, its price in cents per MWh and its largest quantity in kWh.
#[derive(Clone, Copy, PartialEq, Eq, Debug)]
pub struct TransferWish {
    pub first: u8,
    pub second: u8,
    pub price: u32,
    pub quantity: u32,
}

impl Transfer {
    /// What a kWh gains at these zone prices.
    fn slope(&self, prices: &[i32; MOST_ZONES]) -> i64
        ensures { result ≡ transfer_slope prices.now self.now.first self.now.second self.now.terms.price }
    {
        let paid = zone_price(prices, self.first) - zone_price(prices, self.second);
        order_price(self.terms.price) + paid
    }
}

impl Kind for Transfer {
    type Wish = TransferWish;

    ghost meaning = { λ o. transfer o.first o.second o.terms.price o.terms.quantity };

    ghost meant = { transfer };

    ghost wished = { λ w. transfer w.first w.second w.price w.quantity };

    ghost found = { λ w zones. TwoZones w.first w.second zones };

    ghost fitting = { λ w. InRange w.price w.quantity };

    ghost sound = { transfer_sound };

    ghost sized = { λ _ _ _ _. refl };

    fn of_row(row: &Row) -> Option<Transfer>
        ensures { MatchOption result (Ranged row.now → ⊥) (λ o. Ranged row.now × (o.first ≡ row.now.first) × (o.second ≡ row.now.second) × (o.terms.price ≡ row.now.price) × (o.terms.quantity ≡ row.now.quantity)) }
    {
        // Taken apart, as in an order with one zone.
        let Terms { price, quantity } = Terms::of_row(row)?;
        Some(Transfer {
            first: row.first,
            second: row.second,
            terms: Terms { price, quantity },
        })
    }

    fn row(house: House, wish: TransferWish, zones: usize) -> Result<Row, Fault> {
        if usize::from(wish.first.max(wish.second)) >= zones || wish.first == wish.second {
            return Err(Fault::Missing);
        }
        Row {
            house,
            standing: true,
            first: wish.first,
            second: wish.second,
            price: wish.price,
            quantity: wish.quantity,
        }
        .checked()
    }

    fn largest(&self) -> u32 {
        self.terms.quantity
    }

    fn last_zone(&self) -> u8 {
        self.first.max(self.second)
    }

    fn worth(&self, quantity: u32) -> i64 {
        // Returned at once, here and for what is fed in: a function over the answer would hide which is asked first.
        if quantity > self.terms.quantity {
            return 0;
        }
        money(self.terms, quantity)
    }

    fn injection(&self, quantity: u32, zone: usize) -> i64 {
        if quantity > self.terms.quantity {
            return 0;
        }
        fed(quantity, self.first, zone) - fed(quantity, self.second, zone)
    }

    fn content(&self, quantity: u32, prices: &[i32; MOST_ZONES]) -> bool {
        content_at(self.terms.quantity, quantity, self.slope(prices))
    }
}
