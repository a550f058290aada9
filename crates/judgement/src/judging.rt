//! The judgement of a sheet: the rules in their order, and what an accepted sheet amounts to.

ghost use Rattle.orders.specs.Books.{book_of, lent};
ghost use Rattle.orders.specs.Reads.{array_prices};
ghost use Rattle.sheets.specs.Proposals.{dispatch_of, prices_of};
ghost use Rattle.judgement.specs.Parts.{Taken};
ghost use Rattle.judgement.specs.Verdicts.{Accounts, Judged, Nets, Ruled};

use crate::measures::{Charge, Injection, Worth};
use crate::sums::sum_of;
use crate::verdict::Verdict;
use auction::bounds::MOST_ZONES;
use auction::{Broken, House, PerHouse};
use flows::{in_balance, lines_bind, lines_within_limits, rent_of, zone_prices};
use network::Network;
use orders::{LentBook, OrderList};
use places::{orders_content, quantities_possible};
use sheets::Sheet;

// A book and a sheet are two references that one word ties, Taken: a struct of both would only add a name to each clause.

/// The net injection of each zone, 0 for a zone that the network lacks.
fn net_injections<N: Network, X: OrderList, Y: OrderList, W: OrderList>(
    network: &N,
    book: &LentBook<'_, X, Y, W>,
    sheet: &Sheet,
) -> [i32; MOST_ZONES]
    requires { Taken (lent X.OrderList Y.OrderList W.OrderList book.now) (dispatch_of sheet.now) }
    ensures { Nets (N.Network.grid network.now).zones (lent X.OrderList Y.OrderList W.OrderList book.now) (dispatch_of sheet.now) result }
{
    let mut nets = [0i32; MOST_ZONES];
    // By index: with `iter_mut` over the first places it stays open what the array holds once the rest follows them.
    for zone in 0..network.zones() {
        // Nothing is lost: a net injection is at most 60 million kWh.
        nets[zone] = sum_of(book, sheet, &Injection { zone }) as i32;
    }
    nets
}

/// The rules in their order: the zone prices of a sheet that breaks none, or the first rule broken, at its first place.
fn rules<N: Network, X: OrderList, Y: OrderList, W: OrderList>(
    network: &N,
    book: &LentBook<'_, X, Y, W>,
    sheet: &Sheet,
) -> Result<[i32; MOST_ZONES], Broken>
    ensures { Ruled (N.Network.grid network.now) (lent X.OrderList Y.OrderList W.OrderList book.now) (dispatch_of sheet.now) (prices_of sheet.now) result }
{
    quantities_possible(book, sheet)?;
    let nets = net_injections(network, book, sheet);
    // A test, since this rule names no place.
    if !in_balance(&nets) {
        return Err(Broken::Balance);
    }
    lines_within_limits(network, &nets)?;
    let prices = zone_prices(network, sheet)?;
    lines_bind(network, &nets, sheet)?;
    orders_content(book, sheet, &prices)?;
    Ok(prices)
}

/// What a sheet amounts to whose orders take what they may, at these zone prices.
fn accounts<N: Network, X: OrderList, Y: OrderList, W: OrderList>(
    network: &N,
    book: &LentBook<'_, X, Y, W>,
    sheet: &Sheet,
    prices: &[i32; MOST_ZONES],
) -> Verdict
    requires { Taken (lent X.OrderList Y.OrderList W.OrderList book.now) (dispatch_of sheet.now) }
    ensures { Accounts (N.Network.grid network.now) (lent X.OrderList Y.OrderList W.OrderList book.now) (dispatch_of sheet.now) (prices_of sheet.now) (array_prices prices.now) result }
{
    Verdict {
        welfare: sum_of(book, sheet, &Worth),
        rent: rent_of(network, sheet),
        amounts: PerHouse {
            zero: sum_of(
                book,
                sheet,
                &Charge {
                    prices,
                    house: House::Zero,
                },
            ),
            one: sum_of(
                book,
                sheet,
                &Charge {
                    prices,
                    house: House::One,
                },
            ),
        },
    }
}

/// Judges a sheet: what an accepted one amounts to, or the first rule that it breaks, at its first place.
pub fn judge<N: Network, X: OrderList, Y: OrderList, W: OrderList>(
    network: &N,
    first: &X,
    second: &Y,
    third: &W,
    sheet: &Sheet,
) -> Result<Verdict, Broken>
    ensures { Judged (N.Network.grid network.now) (book_of (X.OrderList.entries first.now) (Y.OrderList.entries second.now) (W.OrderList.entries third.now)) (dispatch_of sheet.now) (prices_of sheet.now) result }
{
    let book = LentBook {
        first,
        second,
        third,
    };
    let prices = rules(network, &book, sheet)?;
    Ok(accounts(network, &book, sheet, &prices))
}
