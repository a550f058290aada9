//! Some rows, one after the other, with place for so many.

ghost use Rattle.std.specs.Prelude.{◌≡◌, [], slice_index_or};
ghost use Rattle.auction.specs.Grids.{no_line};
ghost use Rattle.network.specs.Rows.{row_line, lines_in, SameLine};

use super::Row;
use filled::Filled;

/// Up to `N` rows.
pub type RowList<const N: usize> = Filled<Row, N>;

/// A list without a row.
pub fn no_rows<const N: usize>() -> RowList<N>
    ensures { lines_in result ≡ [] }
{
    RowList::new(Row::blank())
}

/// The row at an index, and a blank one where there is none.
pub fn row_at<const N: usize>(rows: &RowList<N>, index: usize) -> Row
    ensures { SameLine (row_line result) (slice_index_or (lines_in rows.now) index no_line) }
{
    match rows.get(index) {
        Some(row) => row,
        None => Row::blank(),
    }
}
