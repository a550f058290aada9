//! Whether the numbers of a row are those of an order.

ghost use Rattle.std.specs.Prelude.{◌≡◌, Decides, MatchResult};
ghost use Rattle.auction.specs.declared.Fault.TheVariants.{OutOfRange};
ghost use Rattle.rows.specs.Rows.{Ranged};

use super::Row;
use auction::Fault;
use auction::bounds::{MOST_KWH, MOST_PRICE};

impl Row {
    /// Are price and quantity in range?
    pub fn in_range(self) -> bool
        ensures { Decides result (Ranged self) }
    {
        self.price <= MOST_PRICE && (1..=MOST_KWH).contains(&self.quantity)
    }

    /// The row itself, if its price and quantity are in range.
    pub fn checked(self) -> Result<Row, Fault>
        ensures { MatchResult result (λ row. Ranged row × (row ≡ self)) (λ fault. (fault ≡ OutOfRange) × (Ranged self → ⊥)) }
    {
        if self.in_range() {
            Ok(self)
        } else {
            Err(Fault::OutOfRange)
        }
    }
}
