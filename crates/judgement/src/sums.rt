//! Sums over the orders of a book, at the quantities of a sheet.

ghost use Rattle.std.specs.Prelude.{◌≡◌, ◌*◌, ◌≤◌, unsigned_abs};
ghost use Rattle.auction.specs.Bounds.{most_kwh};
ghost use Rattle.auction.specs.Hours.{over_orders};
ghost use Rattle.orders.specs.Books.{lent};
ghost use Rattle.sheets.specs.Proposals.{dispatch_of};
ghost use Rattle.judgement.specs.Parts.{AllTake, Taken, list_sum};

use crate::measures::Measure;
use orders::{LentBook, OrderList};
use sheets::Sheet;

/// The sum over the orders of one list.
fn sum_in<L: OrderList, M: Measure>(list: &L, index: usize, sheet: &Sheet, measure: &M) -> i64
    requires { AllTake (L.OrderList.entries list.now) (dispatch_of sheet.now index) }
    ensures value { result ≡ list_sum (L.OrderList.entries list.now) (dispatch_of sheet.now index) (M.Measure.term measure.now) }
    ensures bound { unsigned_abs result ≤ M.Measure.rate measure.now * most_kwh }
{
    let mut total: i64 = 0;
    // A loop: a closure over a measure would need clauses of its own.
    for number in 0..list.count() {
        total += measure.of(list, number, sheet.quantity(index, number));
    }
    total
}

/// The sum over the orders of all three lists.
pub(crate) fn sum_of<X: OrderList, Y: OrderList, W: OrderList, M: Measure>(
    book: &LentBook<'_, X, Y, W>,
    sheet: &Sheet,
    measure: &M,
) -> i64
    requires { Taken (lent X.OrderList Y.OrderList W.OrderList book.now) (dispatch_of sheet.now) }
    ensures value { result ≡ over_orders (lent X.OrderList Y.OrderList W.OrderList book.now) (dispatch_of sheet.now) (M.Measure.term measure.now) }
    ensures bound { unsigned_abs result ≤ M.Measure.rate measure.now * 30000000 }
{
    let both = sum_in(book.first, 0, sheet, measure) + sum_in(book.second, 1, sheet, measure);
    both + sum_in(book.third, 2, sheet, measure)
}
