//! The rows of a list.

ghost use Rattle.std.specs.Prelude.{◌≡◌, ◌≤◌};
ghost use Rattle.std.specs.List.{All};
ghost use Rattle.auction.specs.Bounds.{most_kwh};
ghost use Rattle.filled.specs.Lists.{kept};
ghost use Rattle.rows.specs.Kwh.{Ranged, rows_kwh};

use super::Row;
use auction::bounds::MOST_ORDERS;
use filled::Filled;

/// The orders that were entered, in their order, and the kWh that the standing ones may take at most.
#[derive(Drop)]
pub struct Rows {
    pub(crate) rows: Filled<Row, MOST_ORDERS>,
    pub(crate) standing: u32,
    pub ghost ranged: { All Ranged (kept rows) },
    ghost summed: { standing ≡ rows_kwh (kept rows) },
    ghost modest: { standing ≤ most_kwh },
}
