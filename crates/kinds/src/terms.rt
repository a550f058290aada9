//! The price and the largest quantity of an order.

ghost use Rattle.std.specs.Prelude.{◌≡◌, MatchOption};
ghost use Rattle.rows.specs.Bounds.{InRange};
ghost use Rattle.rows.specs.Rows.{Ranged};

use rows::Row;

/// An order's price, in cents per MWh, and its largest quantity, in kWh. There are none out of range.
#[derive(Clone, Copy)]
pub struct Terms {
    pub price: u32,
    pub quantity: u32,
    ghost ranged: { InRange price quantity },
}

impl Terms {
    /// Those of a row, if its price and quantity are in range.
    pub fn of_row(row: &Row) -> Option<Terms>
        ensures { MatchOption result (Ranged row.now → ⊥) (λ terms. Ranged row.now × (terms.price ≡ row.now.price) × (terms.quantity ≡ row.now.quantity)) }
    {
        if !row.in_range() {
            return None;
        }
        Some(Terms {
            price: row.price,
            quantity: row.quantity,
        })
    }
}
