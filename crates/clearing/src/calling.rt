//! The box as its users see it.

ghost use Rattle.std.specs.Prelude.{◌≡◌, []};
ghost use Rattle.auction.specs.Houses.{house_number};
ghost use Rattle.history.specs.Events.{caller_number};
ghost use Rattle.clearing.specs.Views.{BoxKeeps, CarriesOn, ComesOut, situation};

use crate::state::ClearingBox;
use auction::{House, Refusal};
use filling::blank;
use history::{Call, Reply};
use ledger::{Ledger, Phase};
use network::Network;
use orders::{Book, OrderList};

impl<N: Network, X: OrderList, Y: OrderList, W: OrderList> ClearingBox<N, X, Y, W>
where
    X::Wish: Copy,
    Y::Wish: Copy,
    W::Wish: Copy,
{
    /// A box over a network, with an open hour, no orders, empty sheets, and nothing tried, settled or paid. What the lists held is forgotten.
    pub fn open(network: N, first: X, second: Y, third: W) -> ClearingBox<N, X, Y, W>
        ensures network { result.network ≡ network }
        ensures history { BoxKeeps N.Network X.OrderList Y.OrderList W.OrderList [] result }
    {
        let mut opened = ClearingBox {
            network,
            book: Book {
                first,
                second,
                third,
            },
            sheets: blank(),
            ledger: Ledger::opening(),
        };
        opened.clear();
        opened
    }

    /// What comes of a call whose house is one of the two: the hour allows it or not.
    fn handle(
        &mut self,
        house: House,
        call: Call<X::Wish, Y::Wish, W::Wish>,
    ) -> Result<Reply, Refusal>
        requires { caller_number call ≡ house_number house }
        ensures { ComesOut N.Network X.OrderList Y.OrderList W.OrderList call self.old result self.new }
    {
        match (self.ledger.phase(), call) {
            (Phase::Open, Call::Enter { wish, .. }) => self.enter(house, wish),
            (Phase::Open, Call::Withdraw { list, number, .. }) => self.withdraw(
                house, list, number,
            ),
            (Phase::Open, Call::Close { .. }) => self.close(house),
            (Phase::Closed, Call::Fill { filling, .. }) => self.fill(house, filling),
            (Phase::Closed, Call::Try { .. }) => self.try_sheet(house),
            (Phase::Closed, Call::Settle { .. }) => self.settle(house),
            (Phase::Closed, Call::Void { .. }) => self.void(house),
            _ => Err(Refusal::NotNow),
        }
    }

    // Each clause names the four meanings: only a clause can name the ghost members of a bound.
    /// Makes a call: the reply to it, or why it is refused. A refused call alters nothing, but that a judged sheet uses up a try.
    pub fn call(&mut self, call: Call<X::Wish, Y::Wish, W::Wish>) -> Result<Reply, Refusal>
        ensures outcome { ComesOut N.Network X.OrderList Y.OrderList W.OrderList call self.old result self.new }
        ensures history { CarriesOn N.Network X.OrderList Y.OrderList W.OrderList call self.old result self.new }
    {
        let house = House::try_from(call.house())?;
        self.handle(house, call)
    }
}

impl<N: Network, X: OrderList, Y: OrderList, W: OrderList> ClearingBox<N, X, Y, W> {
    /// What a house has paid since the opening, in millionths of a cent; it was paid where this is negative.
    pub fn account(&self, house: House) -> i128
        ensures { result ≡ (situation X.OrderList Y.OrderList W.OrderList self.now).account house }
    {
        self.ledger.account(house)
    }

    /// The congestion rent of all hours settled since the opening, in millionths of a cent.
    pub fn rent_account(&self) -> i128
        ensures { result ≡ (situation X.OrderList Y.OrderList W.OrderList self.now).rent_account }
    {
        self.ledger.rent_account()
    }

    /// How many hours were settled since the opening.
    pub fn settled_hours(&self) -> u16
        ensures { result ≡ (situation X.OrderList Y.OrderList W.OrderList self.now).settled_hours }
    {
        self.ledger.settled_hours()
    }
}
