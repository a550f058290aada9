//! The first order of a book that breaks a rule, by list and number.

ghost use Rattle.std.specs.Prelude.{length};
ghost use Rattle.auction.specs.declared.Broken.TheVariants.{Quantity, Contentment};
ghost use Rattle.auction.specs.Hours.{Takes};
ghost use Rattle.flows.specs.Firsts.{Each};
ghost use Rattle.orders.specs.Books.{lent};
ghost use Rattle.orders.specs.Reads.{array_prices, entry};
ghost use Rattle.sheets.specs.Proposals.{dispatch_of};
ghost use Rattle.places.specs.Places.{AtEase, EachOrder, OfOrder};

use crate::rules::{Content, Possible, Rule};
use auction::Broken;
use auction::bounds::MOST_ZONES;
use orders::{LentBook, OrderList};
use sheets::Sheet;

/// Each order of one list meets the rule at its quantity on the sheet; or the first that does not.
fn first_in<L: OrderList, R: Rule>(
    list: &L,
    index: u8,
    sheet: &Sheet,
    rule: &R,
) -> Result<(), Broken>
    ensures { Each (R.Rule.named rule.now index) (λ n. R.Rule.asks rule.now (entry (L.OrderList.entries list.now) n) (dispatch_of sheet.now index n)) (length (L.OrderList.entries list.now)) result }
{
    let failing = (0..list.count()).find(|number| !rule.met(
        list,
        *number,
        sheet.quantity(usize::from(index), *number),
    ));
    match failing {
        // Nothing is lost: a list has at most 512 orders.
        Some(number) => Err(rule.broken(index, number as u16)),
        None => Ok(()),
    }
}

/// Each order of all three lists meets the rule; or the first that does not.
fn first_of<X: OrderList, Y: OrderList, W: OrderList, R: Rule>(
    book: &LentBook<'_, X, Y, W>,
    sheet: &Sheet,
    rule: &R,
) -> Result<(), Broken>
    ensures { EachOrder (R.Rule.named rule.now) (OfOrder (lent X.OrderList Y.OrderList W.OrderList book.now) (dispatch_of sheet.now) (R.Rule.asks rule.now)) result }
{
    first_in(book.first, 0, sheet, rule)?;
    first_in(book.second, 1, sheet, rule)?;
    first_in(book.third, 2, sheet, rule)
}

/// Each order takes what it may; or the first that does not.
pub fn quantities_possible<X: OrderList, Y: OrderList, W: OrderList>(
    book: &LentBook<'_, X, Y, W>,
    sheet: &Sheet,
) -> Result<(), Broken>
    ensures { EachOrder Quantity (OfOrder (lent X.OrderList Y.OrderList W.OrderList book.now) (dispatch_of sheet.now) Takes) result }
{
    first_of(book, sheet, &Possible)
}

/// Each standing order is content at these zone prices; or the first that is not.
pub fn orders_content<X: OrderList, Y: OrderList, W: OrderList>(
    book: &LentBook<'_, X, Y, W>,
    sheet: &Sheet,
    prices: &[i32; MOST_ZONES],
) -> Result<(), Broken>
    ensures { EachOrder Contentment (OfOrder (lent X.OrderList Y.OrderList W.OrderList book.now) (dispatch_of sheet.now) (AtEase (array_prices prices.now))) result }
{
    first_of(book, sheet, &Content { prices })
}
