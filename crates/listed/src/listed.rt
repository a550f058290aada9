//! A list of orders of one kind, whichever it is.

ghost use Rattle.std.specs.Prelude.{◌≡◌, ◌<◌, [], length, MatchOption};
ghost use Rattle.orders.specs.Reads.{entry};
ghost use Rattle.listed.specs.Entries.{NoneEntered, RowEntered, entries_by};
ghost use Rattle.rows.specs.Rows.{used};
ghost use Rattle.listed.specs.Entered.{few_entries, modest_entries, housed_entries, sound_entries};

use super::Kind;
use auction::bounds::MOST_ZONES;
use auction::{Fault, House};
use orders::OrderList;
use rows::{Row, Rows};
use std::marker::PhantomData;

/// The orders of one kind that were entered in an hour.
#[derive(Drop)]
pub struct Listed<K> {
    rows: Rows,
    kind: PhantomData<K>,
}

impl<K: Kind> Listed<K> {
    pub fn new() -> Listed<K>
        ensures { entries_by K.Kind.meant result.rows ≡ [] }
    {
        Listed {
            rows: Rows::new(),
            kind: PhantomData,
        }
    }

    // These clauses name `entries_by` where the list's own `entries`, named through its impl, would be longer.
    /// The row with this number, if it was entered.
    fn row(&self, number: usize) -> Option<Row>
        ensures { MatchOption result (NoneEntered (entries_by K.Kind.meant self.now.rows) number) (RowEntered K.Kind.meant (entries_by K.Kind.meant self.now.rows) number) }
    {
        self.rows.row(number)
    }

    /// The order with this number, if it was entered.
    fn order(&self, number: usize) -> Option<K>
        ensures { MatchOption result (NoneEntered (entries_by K.Kind.meant self.now.rows) number)
            (λ order. (number < length (entries_by K.Kind.meant self.now.rows)) × (K.Kind.meaning order ≡ (entry (entries_by K.Kind.meant self.now.rows) number).order)) }
    {
        K::of_row(&self.row(number)?)
    }
}

impl<K: Kind> OrderList for Listed<K> {
    type Wish = K::Wish;

    ghost entries = { λ s. entries_by K.Kind.meant s.rows };

    ghost order = { K.Kind.wished };

    ghost exists = { K.Kind.found };

    ghost ranged = { K.Kind.fitting };

    ghost few = { λ s. few_entries K.Kind.meant s.rows };

    ghost modest = { λ s. modest_entries K.Kind.meant K.Kind.sized s.rows };

    ghost housed = { λ s n. housed_entries K.Kind.meant (used s.rows) n };

    ghost sound = { λ s n. sound_entries K.Kind.meant K.Kind.sound (used s.rows) s.rows.ranged n };

    fn count(&self) -> usize {
        self.rows.count()
    }

    fn house(&self, number: usize) -> House {
        self.row(number).map_or(House::Zero, |row| row.house)
    }

    fn standing(&self, number: usize) -> bool {
        self.row(number).is_some_and(|row| row.standing)
    }

    fn largest(&self, number: usize) -> u32 {
        self.order(number).map_or(0, |order| order.largest())
    }

    fn last_zone(&self, number: usize) -> u8 {
        self.order(number).map_or(0, |order| order.last_zone())
    }

    fn worth(&self, number: usize, quantity: u32) -> i64 {
        self.order(number).map_or(0, |order| order.worth(quantity))
    }

    fn injection(&self, number: usize, quantity: u32, zone: usize) -> i64 {
        self.order(number)
            .map_or(0, |order| order.injection(quantity, zone))
    }

    fn content(&self, number: usize, quantity: u32, prices: &[i32; MOST_ZONES]) -> bool {
        self.order(number)
            .is_some_and(|order| order.content(quantity, prices))
    }

    fn standing_kwh(&self) -> u32 {
        self.rows.standing_kwh()
    }

    fn enter(
        &mut self,
        house: House,
        wish: K::Wish,
        zones: usize,
        elsewhere: u32,
    ) -> Result<(), Fault> {
        let row = K::row(house, wish, zones)?;
        self.rows.push(row, elsewhere)
    }

    fn withdraw(&mut self, number: usize) {
        self.rows.withdraw(number);
    }

    fn clear(&mut self) {
        self.rows.clear();
    }
}
