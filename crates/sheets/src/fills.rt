//! How a sheet is filled in.

ghost use Rattle.std.specs.Prelude.{◌≡◌, ℕ, ◌<◌, ◌≤◌, pos, unsigned_abs};
ghost use Rattle.auction.specs.Bounds.{most_orders, most_lines, most_kwh, most_lambda, most_shadow_price};
ghost use Rattle.auction.specs.Refusals.{Answered, Always};
ghost use Rattle.sheets.specs.Proposals.{dispatch_of, prices_of, with_quantity, with_shadow};

use crate::sheet::{LISTS, Sheet};
use auction::Fault;
use auction::bounds::{MOST_KWH, MOST_LAMBDA, MOST_LINES, MOST_ORDERS, MOST_SHADOW_PRICE};

impl Sheet {
    /// The sheet of a new hour: nothing is filled in.
    pub fn empty() -> Sheet
        ensures { (((l n : ℕ) → dispatch_of result l n ≡ 0)) × (((prices_of result).lambda ≡ pos 0) × (((l : ℕ) → (prices_of result).shadow l ≡ 0))) }
    {
        Sheet {
            quantities: [[0; MOST_ORDERS]; LISTS],
            lambda: 0,
            shadow: [0; MOST_LINES],
        }
    }

    /// Sets one order's quantity.
    pub fn fill_quantity(&mut self, list: usize, number: usize, kwh: u32) -> Result<(), Fault>
        ensures { Answered result ((list < 3) × (number < most_orders)) (kwh ≤ most_kwh) Always
            (λ _. ((l n : ℕ) → dispatch_of self.new l n ≡ with_quantity (dispatch_of self.old) list number kwh l n) × (prices_of self.new ≡ prices_of self.old))
            (self.new ≡ self.old) }
    {
        if list >= LISTS || number >= MOST_ORDERS {
            return Err(Fault::Missing);
        }
        if kwh > MOST_KWH {
            return Err(Fault::OutOfRange);
        }
        // By index: through `get_mut` the check does not find that the rows stay as long.
        self.quantities[list][number] = kwh;
        Ok(())
    }

    /// Sets the reference price.
    pub fn fill_lambda(&mut self, lambda: i32) -> Result<(), Fault>
        ensures { Answered result Always (unsigned_abs lambda ≤ most_lambda) Always
            (λ _. ((l n : ℕ) → dispatch_of self.new l n ≡ dispatch_of self.old l n) × (prices_of self.new ≡ record { lambda = lambda; shadow = (prices_of self.old).shadow }))
            (self.new ≡ self.old) }
    {
        if lambda.unsigned_abs() > MOST_LAMBDA.unsigned_abs() {
            return Err(Fault::OutOfRange);
        }
        self.lambda = lambda;
        Ok(())
    }

    /// Sets one line's shadow price.
    pub fn fill_shadow_price(&mut self, line: usize, price: u32) -> Result<(), Fault>
        ensures { Answered result (line < most_lines) (price ≤ most_shadow_price) Always
            (λ _. ((l n : ℕ) → dispatch_of self.new l n ≡ dispatch_of self.old l n) × ((prices_of self.new).lambda ≡ (prices_of self.old).lambda) × ((l : ℕ) → (prices_of self.new).shadow l ≡ with_shadow (prices_of self.old).shadow line price l))
            (self.new ≡ self.old) }
    {
        if line >= MOST_LINES {
            return Err(Fault::Missing);
        }
        if price > MOST_SHADOW_PRICE {
            return Err(Fault::OutOfRange);
        }
        self.shadow[line] = price;
        Ok(())
    }
}
