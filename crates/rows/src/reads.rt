//! What is read of rows.

ghost use Rattle.std.specs.Prelude.{◌≡◌, length};
ghost use Rattle.rows.specs.Kwh.{rows_kwh};
ghost use Rattle.rows.specs.Rows.{used, row_at};

use super::{Row, Rows};

impl Rows {
    pub fn count(&self) -> usize
        ensures { result ≡ length (used self.now) }
    {
        self.rows.len()
    }

    /// The kWh that the standing orders may take at most.
    pub fn standing_kwh(&self) -> u32
        ensures { result ≡ rows_kwh (used self.now) }
    {
        self.standing
    }

    /// The row with this number, if it was entered.
    pub fn row(&self, number: usize) -> Option<Row>
        ensures { result ≡ row_at (used self.now) number }
    {
        self.rows.get(number)
    }
}
