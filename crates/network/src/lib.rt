//! What every network of zones and lines answers, and the rows from which lines are made.
#![tactic(auto)]

ghost use Rattle.std.specs.Prelude.{◌≡◌, ℕ, ◌≤◌, unsigned_abs};
ghost use Rattle.auction.specs.Limits.{LimitInRange};
ghost use Rattle.auction.specs.Grids.{Grid, line_count, limit_at, sensitivity_at};
ghost use Rattle.auction.specs.Bounds.{most_zones, most_lines, most_sensitivity};

mod list;
mod row;
mod rows;

pub use auction::bounds::{MOST_KWH, MOST_LINES, MOST_SENSITIVITY, MOST_ZONES};
pub use list::{RowList, no_rows, row_at};
pub use row::Row;

/// A network: its zones, and its lines with their limits and sensitivities.
pub trait Network {
    ghost grid: { Self → Grid };

    fn zones(&self) -> usize
        ensures { result ≡ (grid self.now).zones };

    fn lines(&self) -> usize
        ensures { result ≡ line_count (grid self.now) };

    /// In thousandths, and 0 for a line or a zone that the network lacks.
    fn sensitivity(&self, line: usize, zone: usize) -> i16
        ensures { result ≡ sensitivity_at (grid self.now) line zone };

    /// In kWh, and 0 for a line that the network lacks.
    fn limit(&self, line: usize) -> u32
        ensures { result ≡ limit_at (grid self.now) line };

    ghost zoned: { (n : Self) → 1 ≤ (grid n).zones };

    ghost fewzones: { (n : Self) → (grid n).zones ≤ most_zones };

    ghost fewlines: { (n : Self) → line_count (grid n) ≤ most_lines };

    ghost limited: { (n : Self) (l : ℕ) → LimitInRange (limit_at (grid n) l) };

    ghost sensitive: { (n : Self) (l z : ℕ) → unsigned_abs (sensitivity_at (grid n) l z) ≤ most_sensitivity };
}
