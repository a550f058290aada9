//! What is asked of orders with one zone, whichever their side.

ghost use Rattle.std.specs.Prelude.{◌≡◌, MatchOption};
ghost use Rattle.rows.specs.Rows.{Ranged};
ghost use Rattle.kinds.specs.Wishes.{order_wished, zone_found, terms_fit};

use super::super::{Terms, ZoneWish};
use super::{Side, ZoneOrder};
use auction::bounds::MOST_ZONES;
use auction::{Fault, House};
use listed::Kind;
use rows::Row;
use std::marker::PhantomData;

impl<S: Side> Kind for ZoneOrder<S> {
    type Wish = ZoneWish;

    ghost meaning = { λ o. S.meant o.zone o.terms.price o.terms.quantity };

    ghost meant = { λ first second price quantity. S.meant first price quantity };

    ghost wished = { order_wished S.meant };

    ghost found = { zone_found };

    ghost fitting = { terms_fit };

    ghost sound = { λ first second price quantity ranged. S.sound first price quantity ranged };

    ghost sized = { λ first second price quantity. S.sized first price quantity };

    fn of_row(row: &Row) -> Option<ZoneOrder<S>>
        ensures { MatchOption result (Ranged row.now → ⊥) (λ o. Ranged row.now × (o.zone ≡ row.now.first) × (o.terms.price ≡ row.now.price) × (o.terms.quantity ≡ row.now.quantity)) }
    {
        // Taken apart: as one copy of eight bytes, price and quantity are shifted out of a word again for each order that is asked.
        let Terms { price, quantity } = Terms::of_row(row)?;
        Some(ZoneOrder {
            zone: row.first,
            terms: Terms { price, quantity },
            side: PhantomData,
        })
    }

    fn row(house: House, wish: ZoneWish, zones: usize) -> Result<Row, Fault> {
        wish.row(house, zones)
    }

    fn largest(&self) -> u32 {
        self.terms.quantity
    }

    fn last_zone(&self) -> u8 {
        self.zone
    }

    fn worth(&self, quantity: u32) -> i64 {
        // Returned at once, here and for what is fed in: a function over the answer would hide which is asked first.
        if quantity > self.terms.quantity {
            return 0;
        }
        S::worth(self, quantity)
    }

    fn injection(&self, quantity: u32, zone: usize) -> i64 {
        if quantity > self.terms.quantity {
            return 0;
        }
        S::injection(self, quantity, zone)
    }

    fn content(&self, quantity: u32, prices: &[i32; MOST_ZONES]) -> bool {
        S::content(self, quantity, prices)
    }
}
