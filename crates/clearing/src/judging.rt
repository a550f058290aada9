//! How a sheet is judged: a try is used up first.

ghost use Rattle.std.specs.Prelude.{◌≡◌};
ghost use Rattle.ledger.specs.Pages.{page};
ghost use Rattle.orders.specs.Books.{booked};
ghost use Rattle.sheets.specs.Proposals.{dispatch_of, prices_of};
ghost use Rattle.steps.specs.Parts.{Spent};

use auction::Refusal;
use history::Reply;
use judgement::{Verdict, judge};
use ledger::Ledger;
use network::Network;
use orders::{Book, OrderList};
use sheets::Sheet;

/// Judges a sheet, if a try is left.
pub(crate) fn judged<N: Network, X: OrderList, Y: OrderList, W: OrderList>(
    ledger: &mut Ledger,
    network: &N,
    book: &Book<X, Y, W>,
    sheet: &Sheet,
) -> Result<Verdict, Refusal>
    ensures { Spent (N.Network.grid network.now) (booked X.OrderList Y.OrderList W.OrderList book.now) (dispatch_of sheet.now) (prices_of sheet.now) (page ledger.old) result (page ledger.new) }
{
    ledger.spend_try()?;
    let verdict = judge(network, &book.first, &book.second, &book.third, sheet)?;
    Ok(verdict)
}

/// The reply to a call whose sheet breaks no rule.
pub(crate) fn accepted(verdict: &Verdict) -> Reply
    ensures { result ≡ Reply.Accepted verdict.now.welfare verdict.now.rent }
{
    Reply::Accepted {
        welfare: verdict.welfare,
        rent: verdict.rent,
    }
}
