//! What an order is paid at the prices of the zones.

ghost use Rattle.std.specs.Prelude.{◌≡◌, ◌*◌, ◌^◌, ◌<◌, ◌≤◌, length, ◌*ℤ◌, unsigned_abs};
ghost use Rattle.auction.specs.Orders.{Possible, proceeds};
ghost use Rattle.orders.specs.Reads.{array_prices, entry};

use auction::bounds::MOST_ZONES;
use orders::OrderList;

/// What is paid for some kWh at a price.
fn paid(price: i32, kwh: i64) -> i64
    requires { unsigned_abs kwh ≤ 2 ^ 31 }
    ensures { (result ≡ price *ℤ kwh) × (unsigned_abs price ≤ 2 ^ 31) }
{
    i64::from(price) * kwh
}

/// What an order is paid at these zone prices, in millionths of a cent.
pub(crate) fn proceeds<L: OrderList>(
    list: &L,
    number: usize,
    quantity: u32,
    prices: &[i32; MOST_ZONES],
) -> i64
    requires { (number < length (L.OrderList.entries list.now)) × (Possible (entry (L.OrderList.entries list.now) number).order quantity) }
    ensures value { result ≡ proceeds (array_prices prices.now) (entry (L.OrderList.entries list.now) number).order quantity }
    ensures bound { unsigned_abs result ≤ 4294967296 * quantity }
{
    let mut total: i64 = 0;
    // A loop: the library's sum asks that the total fits, which only the bounds of the terms say.
    for (zone, price) in prices.iter().enumerate() {
        total += paid(*price, list.injection(number, quantity, zone));
    }
    total
}
