//! How a row is made from numbers, and read.

ghost use Rattle.std.specs.Prelude.{◌≡◌, ℕ, Decides};
ghost use Rattle.auction.specs.Grids.{no_line};
ghost use Rattle.network.specs.Bounds.{OfZones, SensitivitiesInRange, NumbersInRange};
ghost use Rattle.auction.specs.Refusals.{Always, Answered};
ghost use Rattle.network.specs.Rows.{line_of, row_line};

use super::Row;
use auction::Fault;
use auction::bounds::{MOST_KWH, MOST_SENSITIVITY, MOST_ZONES};

/// Is each sensitivity for a zone that is not there 0?
fn of_zones(zones: usize, sensitivities: &[i16; MOST_ZONES]) -> bool
    ensures { Decides result (OfZones zones sensitivities.now) }
{
    sensitivities
        .iter()
        .skip(zones)
        .all(|sensitivity| *sensitivity == 0)
}

fn in_range(sensitivities: &[i16; MOST_ZONES]) -> bool
    ensures { Decides result (SensitivitiesInRange sensitivities.now) }
{
    sensitivities.iter().all(|sensitivity| sensitivity.unsigned_abs()
        <= MOST_SENSITIVITY.unsigned_abs())
}

impl Row {
    /// A row without capacity over which nothing flows, to fill a place that is not yet used.
    pub fn blank() -> Row
        ensures { ((row_line result).limit ≡ no_line.limit) × (((z : ℕ) → (row_line result).sensitivity z ≡ no_line.sensitivity z)) }
    {
        Row {
            limit: 0,
            sensitivities: [0; MOST_ZONES],
        }
    }

    /// A line of a network with so many zones: refused where it has a sensitivity for another zone, else where a number is out of range.
    // Limit and sensitivities come apart: they are a row only where the zones of the network are known.
    pub fn new(zones: usize, limit: u32, sensitivities: [i16; MOST_ZONES]) -> Result<Row, Fault>
        ensures { Answered result (OfZones zones sensitivities) (NumbersInRange limit sensitivities) Always (λ row. row_line row ≡ line_of limit sensitivities) Always }
    {
        if !of_zones(zones, &sensitivities) {
            return Err(Fault::Missing);
        }
        if limit > MOST_KWH || !in_range(&sensitivities) {
            return Err(Fault::OutOfRange);
        }
        Ok(Row {
            limit,
            sensitivities,
        })
    }

    /// In kWh.
    pub fn limit(&self) -> u32
        ensures { result ≡ (row_line self.now).limit }
    {
        self.limit
    }

    /// In thousandths, and 0 for a zone that no network has.
    pub fn sensitivity(&self, zone: usize) -> i16
        ensures { result ≡ (row_line self.now).sensitivity zone }
    {
        self.sensitivities.get(zone).copied().unwrap_or(0)
    }
}
