//! The calls of a closed hour.

ghost use Rattle.std.specs.Prelude.{◌≡◌, true, [], length, Decides};
ghost use Rattle.auction.specs.Houses.{house_number};
ghost use Rattle.auction.specs.Hours.{list_at};
ghost use Rattle.orders.specs.Books.{booked, book_of};
ghost use Rattle.ledger.specs.Pages.{page};
ghost use Rattle.filling.specs.Sheets.{Blank};
ghost use Rattle.history.specs.declared.calls.Call.TheVariants as Calls;
ghost use Rattle.history.specs.Right.{Fillable};
ghost use Rattle.clearing.specs.Views.{Handles, situation};

use crate::judging::{accepted, judged};
use crate::state::ClearingBox;
use auction::{House, Refusal};
use filling::{blank, fill};
use history::{Filling, Reply};
use network::Network;
use orders::OrderList;

impl<N: Network, X: OrderList, Y: OrderList, W: OrderList> ClearingBox<N, X, Y, W> {
    /// How many orders were entered in a list.
    fn count(&self, list: u8) -> usize
        ensures { result ≡ length (list_at (booked X.OrderList Y.OrderList W.OrderList self.now.book) list) }
    {
        // The lists are of three types, so none is handed out by its number.
        match list {
            0 => self.book.first.count(),
            1 => self.book.second.count(),
            2 => self.book.third.count(),
            _ => 0,
        }
    }

    /// Is the order or the line there that is filled in for?
    fn fillable(&self, filling: Filling) -> bool
        ensures { Decides result (Fillable (N.Network.grid self.now.network) (booked X.OrderList Y.OrderList W.OrderList self.now.book) filling) }
    {
        match filling {
            Filling::Quantity { list, number, .. } => usize::from(number) < self.count(list),
            Filling::Lambda { .. } => true,
            Filling::ShadowPrice { line, .. } => usize::from(line) < self.network.lines(),
        }
    }

    /// Fills in one number of the house's sheet.
    pub(crate) fn fill(&mut self, house: House, filling: Filling) -> Result<Reply, Refusal>
        ensures { Handles N.Network X.OrderList Y.OrderList W.OrderList house (Calls.Fill (house_number house) filling) self.old result self.new }
    {
        if !self.fillable(filling) {
            return Err(Refusal::Missing);
        }
        fill(&mut self.sheets, house, filling)?;
        Ok(Reply::Done)
    }

    /// Judges the house's sheet.
    pub(crate) fn try_sheet(&mut self, house: House) -> Result<Reply, Refusal>
        ensures { Handles N.Network X.OrderList Y.OrderList W.OrderList house (Calls.Try (house_number house)) self.old result self.new }
    {
        let sheet = self.sheets.of(house);
        let verdict = judged(&mut self.ledger, &self.network, &self.book, sheet)?;
        Ok(accepted(&verdict))
    }

    /// Forgets orders and sheets, for a new hour.
    pub(crate) fn clear(&mut self)
        ensures kept { (self.new.network ≡ self.old.network) × (self.new.ledger ≡ self.old.ledger) }
        ensures orders { booked X.OrderList Y.OrderList W.OrderList self.new.book ≡ book_of [] [] [] }
        ensures sheets { Blank self.new.sheets }
    {
        self.book.first.clear();
        self.book.second.clear();
        self.book.third.clear();
        self.sheets = blank();
    }

    /// Judges the house's sheet, and where it breaks no rule posts the amounts and the rent and starts a new hour.
    pub(crate) fn settle(&mut self, house: House) -> Result<Reply, Refusal>
        requires { (page self.old.ledger).closed ≡ true }
        ensures { Handles N.Network X.OrderList Y.OrderList W.OrderList house (Calls.Settle (house_number house)) self.old result self.new }
    {
        let sheet = self.sheets.of(house);
        let verdict = judged(&mut self.ledger, &self.network, &self.book, sheet)?;
        self.ledger.settle(verdict.amounts, verdict.rent);
        self.clear();
        Ok(accepted(&verdict))
    }

    /// Starts a new hour without money.
    pub(crate) fn void(&mut self, house: House) -> Result<Reply, Refusal>
        ensures { Handles N.Network X.OrderList Y.OrderList W.OrderList house (Calls.Void (house_number house)) self.old result self.new }
    {
        self.ledger.start_anew();
        self.clear();
        Ok(Reply::Done)
    }
}
