//! The calls of an open hour.

ghost use Rattle.std.specs.Prelude.{◌≡◌, ◌+◌};
ghost use Rattle.auction.specs.Houses.{house_number};
ghost use Rattle.history.specs.declared.calls.Call.TheVariants as Calls;
ghost use Rattle.clearing.specs.Views.{Handles};

use crate::lists::{enter_into, withdraw_from};
use crate::state::ClearingBox;
use auction::{House, Refusal};
use history::{Reply, Wish};
use network::Network;
use orders::OrderList;

impl<N: Network, X: OrderList, Y: OrderList, W: OrderList> ClearingBox<N, X, Y, W> {
    /// Enters an order.
    pub(crate) fn enter(
        &mut self,
        house: House,
        wish: Wish<X::Wish, Y::Wish, W::Wish>,
    ) -> Result<Reply, Refusal>
        ensures { Handles N.Network X.OrderList Y.OrderList W.OrderList house (Calls.Enter (house_number house) wish) self.old result self.new }
    {
        let zones = self.network.zones();
        let book = &mut self.book;
        let first = book.first.standing_kwh();
        let second = book.second.standing_kwh();
        let third = book.third.standing_kwh();
        match wish {
            Wish::First(wish) => enter_into(&mut book.first, house, wish, zones, second + third),
            Wish::Second(wish) => enter_into(&mut book.second, house, wish, zones, first + third),
            Wish::Third(wish) => enter_into(&mut book.third, house, wish, zones, first + second),
        }
    }

    /// Withdraws a standing order of the house's own.
    pub(crate) fn withdraw(&mut self, house: House, list: u8, number: u16) -> Result<Reply, Refusal>
        ensures { Handles N.Network X.OrderList Y.OrderList W.OrderList house (Calls.Withdraw (house_number house) list number) self.old result self.new }
    {
        // The lists are of three types, so none is handed out by its number, to a closure either.
        match list {
            0 => withdraw_from(&mut self.book.first, house, number),
            1 => withdraw_from(&mut self.book.second, house, number),
            2 => withdraw_from(&mut self.book.third, house, number),
            _ => Err(Refusal::Missing),
        }
    }

    /// Closes the hour.
    pub(crate) fn close(&mut self, house: House) -> Result<Reply, Refusal>
        ensures { Handles N.Network X.OrderList Y.OrderList W.OrderList house (Calls.Close (house_number house)) self.old result self.new }
    {
        self.ledger.close()?;
        Ok(Reply::Done)
    }
}
