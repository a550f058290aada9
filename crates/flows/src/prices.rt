//! The prices of the zones of a network, and the congestion rent.

ghost use Rattle.std.specs.Prelude.{◌≡◌, ◌≤◌, pos, ◌-ℤ◌, Decides, unsigned_abs};
ghost use Rattle.auction.specs.Sums.{Σ};
ghost use Rattle.auction.specs.Grids.{line_count, limit_at};
ghost use Rattle.auction.specs.Limits.{line_rent};
ghost use Rattle.auction.specs.Orders.{ZonePriceInRange};
ghost use Rattle.auction.specs.Hours.{exact_rent, zone_price};
ghost use Rattle.sheets.specs.Proposals.{prices_of};
ghost use Rattle.flows.specs.Flows.{Priced, discount};

use crate::numbers::sum_of;
use auction::Broken;
use auction::bounds::{MOST_ZONE_PRICE, MOST_ZONES};
use network::Network;
use sheets::Sheet;

// A network and a sheet are two references that no fact ties: a struct of both would only add a name to each clause.

/// What a line takes off the price of a zone.
fn discount_at<N: Network>(network: &N, sheet: &Sheet, zone: usize, line: usize) -> i64
    ensures value { result ≡ discount (N.Network.grid network.now) (prices_of sheet.now) zone line }
    ensures bound { unsigned_abs result ≤ 1000000000 }
{
    i64::from(sheet.shadow_price(line)) * i64::from(network.sensitivity(line, zone))
}

/// What all lines take off the price of a zone.
fn discounts<N: Network>(network: &N, sheet: &Sheet, zone: usize) -> i64
    ensures value { result ≡ Σ (line_count (N.Network.grid network.now)) (discount (N.Network.grid network.now) (prices_of sheet.now) zone) }
    ensures bound { unsigned_abs result ≤ 60000000000 }
{
    sum_of(
        network.lines(),
        |line| discount_at(network, sheet, zone, line),
    )
}

/// The price of a zone that the network has: lambda without what the lines take off.
fn price_inside<N: Network>(network: &N, sheet: &Sheet, zone: usize) -> i64
    ensures { result ≡ (prices_of sheet.now).lambda -ℤ Σ (line_count (N.Network.grid network.now)) (discount (N.Network.grid network.now) (prices_of sheet.now) zone) }
{
    i64::from(sheet.lambda()) - discounts(network, sheet, zone)
}

/// The price of a zone, and 0 for one that the network lacks.
fn price_of<N: Network>(network: &N, sheet: &Sheet, zone: usize) -> i64
    ensures { result ≡ zone_price (N.Network.grid network.now) (prices_of sheet.now) zone }
{
    if zone >= network.zones() {
        return 0;
    }
    price_inside(network, sheet, zone)
}

fn in_range(price: i64) -> bool
    ensures { Decides result (ZonePriceInRange price) }
{
    price.unsigned_abs() <= i64::from(MOST_ZONE_PRICE).unsigned_abs()
}

/// The prices of all zones, 0 for those that the network lacks; or the first zone whose price is out of range.
pub fn zone_prices<N: Network>(network: &N, sheet: &Sheet) -> Result<[i32; MOST_ZONES], Broken>
    ensures { Priced (N.Network.grid network.now) (prices_of sheet.now) result }
{
    let mut prices = [0i32; MOST_ZONES];
    for (zone, place) in prices.iter_mut().enumerate() {
        let price = price_of(network, sheet, zone);
        if !in_range(price) {
            // Nothing is lost: there are 24 places.
            return Err(Broken::ZonePrice { zone: zone as u8 });
        }
        // Nothing is lost: a price in range fits.
        *place = price as i32;
    }
    Ok(prices)
}

/// The rent of one line, in millionths of a cent.
fn line_rent_of<N: Network>(network: &N, sheet: &Sheet, line: usize) -> i64
    ensures value { result ≡ line_rent (limit_at (N.Network.grid network.now) line) ((prices_of sheet.now).shadow line) }
    ensures bound { unsigned_abs result ≤ 10000000000000000 }
{
    1000 * (i64::from(sheet.shadow_price(line)) * i64::from(network.limit(line)))
}

/// The congestion rent of all lines.
pub fn rent_of<N: Network>(network: &N, sheet: &Sheet) -> i64
    ensures { result ≡ exact_rent (N.Network.grid network.now) (prices_of sheet.now) }
{
    sum_of(network.lines(), |line| line_rent_of(network, sheet, line))
}
