//! How a table is made, and gets its lines.

ghost use Rattle.std.specs.Prelude.{◌≤◌, ◌<◌, ◌≡◌, [], ◌∷◌, ◌++◌, length};
ghost use Rattle.auction.specs.Bounds.{most_zones, most_lines};
ghost use Rattle.network.specs.Bounds.{OfZones, NumbersInRange};
ghost use Rattle.auction.specs.Refusals.{Always, Answered};
ghost use Rattle.network.specs.Rows.{line_of};
ghost use Rattle.table.specs.Tables.{table_grid, ZonesExist};

use super::Table;
use auction::Fault;
use auction::bounds::MOST_ZONES;
use network::{Row, no_rows};

impl Table {
    /// So many zones, and no line yet: refused where there cannot be so many.
    pub fn new(zones: u8) -> Result<Table, Fault>
        ensures { Answered result (ZonesExist zones) Always Always (λ table. ((table_grid table).zones ≡ zones) × ((table_grid table).lines ≡ [])) Always }
    {
        let zones = usize::from(zones);
        if !(1..=MOST_ZONES).contains(&zones) {
            return Err(Fault::Missing);
        }
        let rows = no_rows();
        Ok(Table { zones, rows })
    }

    /// Adds a line after the others: refused where it has a sensitivity for a zone that is not there, else where a number is out of range, else where no
    /// place is left.
    pub fn add(&mut self, limit: u32, sensitivities: [i16; MOST_ZONES]) -> Result<(), Fault>
        ensures { Answered result (OfZones (table_grid self.old).zones sensitivities) (NumbersInRange limit sensitivities) (length (table_grid self.old).lines < most_lines) (λ _. ((table_grid self.new).zones ≡ (table_grid self.old).zones) × ((table_grid self.new).lines ≡ (table_grid self.old).lines ++ line_of limit sensitivities ∷ [])) (self.new ≡ self.old) }
    {
        // Limit and sensitivities come apart: they are a row only where the zones of the network are known.
        let row = Row::new(self.zones, limit, sensitivities)?;
        self.rows.push(row)
    }
}
