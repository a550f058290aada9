//! What a call does to one list of orders, whatever its kind.

ghost use Rattle.history.specs.Handling.{ListEntered, ListWithdrawn};

use auction::{House, Refusal};
use history::Reply;
use orders::OrderList;

/// Enters an order, in a network with so many zones and with so many kWh standing in other lists.
pub(crate) fn enter_into<L: OrderList>(
    list: &mut L,
    house: House,
    wish: L::Wish,
    zones: usize,
    elsewhere: u32,
) -> Result<Reply, Refusal>
    ensures { ListEntered (L.OrderList.exists wish zones) (L.OrderList.ranged wish) house (L.OrderList.order wish) elsewhere (L.OrderList.entries list.old) result (L.OrderList.entries list.new) }
{
    list.enter(house, wish, zones, elsewhere)?;
    Ok(Reply::Done)
}

/// Withdraws a standing order of the house's own.
pub(crate) fn withdraw_from<L: OrderList>(
    list: &mut L,
    house: House,
    number: u16,
) -> Result<Reply, Refusal>
    ensures { ListWithdrawn house number (L.OrderList.entries list.old) result (L.OrderList.entries list.new) }
{
    let number = usize::from(number);
    if number >= list.count() {
        return Err(Refusal::Missing);
    }
    if list.house(number) != house || !list.standing(number) {
        return Err(Refusal::NotOwn);
    }
    list.withdraw(number);
    Ok(Reply::Done)
}
