//! How a sheet is read.

ghost use Rattle.std.specs.Prelude.{◌≡◌, ◌≤◌};
ghost use Rattle.auction.specs.Bounds.{most_shadow_price};
ghost use Rattle.sheets.specs.Proposals.{dispatch_of, prices_of};

use crate::sheet::Sheet;

impl Sheet {
    /// The quantity of an order, in kWh.
    pub fn quantity(&self, list: usize, number: usize) -> u32
        ensures { result ≡ dispatch_of self.now list number }
    {
        let quantities = self.quantities.get(list);
        quantities
            .and_then(|list| list.get(number))
            .copied()
            .unwrap_or(0)
    }

    /// The reference price.
    pub fn lambda(&self) -> i32
        ensures { result ≡ (prices_of self.now).lambda }
    {
        self.lambda
    }

    /// The shadow price of a line.
    pub fn shadow_price(&self, line: usize) -> u32
        ensures { (result ≡ (prices_of self.now).shadow line) × (result ≤ most_shadow_price) }
    {
        self.shadow.get(line).copied().unwrap_or(0)
    }
}
