//! How rows are entered and withdrawn.

ghost use Rattle.std.specs.Prelude.{◌≡◌, [], ◌∷◌, ◌++◌};
ghost use Rattle.auction.specs.Refusals.{Answered, Always};
ghost use Rattle.rows.specs.Rows.{Ranged, used, entered, rows_without, Room};

use super::{Row, Rows};
use auction::bounds::MOST_KWH;
use auction::{Fault, House};
use filled::Filled;

impl Rows {
    pub fn new() -> Rows
        ensures { used result ≡ [] }
    {
        let blank = Row {
            house: House::Zero,
            standing: false,
            first: 0,
            second: 0,
            price: 0,
            quantity: 0,
        };
        Rows {
            rows: Filled::new(blank),
            standing: 0,
        }
    }

    /// Enters a row behind the others, standing, if its numbers are in range and there is room for it with so many kWh standing in other lists.
    pub fn push(&mut self, row: Row, elsewhere: u32) -> Result<(), Fault>
        ensures { Answered result Always (Ranged row) (Room (used self.old) elsewhere row.quantity)
            (λ _. used self.new ≡ used self.old ++ entered row ∷ [])
            (used self.new ≡ used self.old) }
    {
        let row = row.checked()?;
        let standing = u64::from(self.standing) + u64::from(elsewhere) + u64::from(row.quantity);
        if standing > u64::from(MOST_KWH) {
            return Err(Fault::NoPlace);
        }
        self.rows.push(Row {
            standing: true,
            ..row
        })?;
        self.standing += row.quantity;
        Ok(())
    }

    /// Ends the standing of an order.
    pub fn withdraw(&mut self, number: usize)
        ensures { used self.new ≡ rows_without (used self.old) number }
    {
        let Some(row) = self.rows.get(number) else {
            return;
        };
        if row.standing {
            self.standing -= row.quantity;
            // It is there: it was just read.
            let _ = self.rows.set(
                number,
                Row {
                    standing: false,
                    ..row
                },
            );
        }
    }

    pub fn clear(&mut self)
        ensures { used self.new ≡ [] }
    {
        self.rows.clear();
        self.standing = 0;
    }
}
