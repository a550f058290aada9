//! A table of lines, within its bounds.

ghost use Rattle.std.specs.Prelude.{◌≤◌};
ghost use Rattle.auction.specs.Bounds.{most_zones};

use auction::bounds::MOST_LINES;
use network::RowList;

/// A number of zones, and a row for each line.
#[derive(Clone, Copy)]
pub struct Table {
    pub(crate) zones: usize,
    pub(crate) rows: RowList<MOST_LINES>,
    ghost zoned: { 1 ≤ zones },
    ghost few: { zones ≤ most_zones },
}
