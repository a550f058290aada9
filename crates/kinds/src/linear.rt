//! What the kinds of order share: worth, injection and gain are proportional to the quantity.

ghost use Rattle.std.specs.Prelude.{◌≡◌, ◌*◌, ◌<◌, ◌≤◌, pos, Decides, unsigned_abs};
ghost use Rattle.auction.specs.Refusals.{Answered, Always};
ghost use Rattle.rows.specs.Bounds.{InRange};
ghost use Rattle.rows.specs.Rows.{Ranged};
ghost use Rattle.kinds.specs.Kinds.{into};
ghost use Rattle.kinds.specs.Slopes.{ContentBySlope, price_in, scaled};

use super::Terms;
use auction::bounds::MOST_ZONES;
use auction::{Fault, House};
use rows::Row;

/// The zone of an offer or a bid, its price in cents per MWh and its largest quantity in kWh.
#[derive(Clone, Copy, PartialEq, Eq, Debug)]
pub struct ZoneWish {
    pub zone: u8,
    pub price: u32,
    pub quantity: u32,
}

impl ZoneWish {
    /// The row of the order that a house wishes for, in a network with so many zones.
    pub fn row(self, house: House, zones: usize) -> Result<Row, Fault>
        ensures { Answered result (self.zone < zones) (InRange self.price self.quantity) Always
            (λ row. Ranged row × (row.house ≡ house) × (row.first ≡ self.zone) × (row.second ≡ self.zone) × (row.price ≡ self.price) × (row.quantity ≡ self.quantity)) Always }
    {
        if usize::from(self.zone) >= zones {
            return Err(Fault::Missing);
        }
        // A row is written with its fields' names, here and for a transfer: five numbers in a call would be easy to swap.
        Row {
            house,
            standing: true,
            first: self.zone,
            second: self.zone,
            price: self.price,
            quantity: self.quantity,
        }
        .checked()
    }
}

/// What a quantity is worth at the price of an order, in thousandths of a cent.
pub(crate) fn money(terms: Terms, quantity: u32) -> i64
    ensures { result ≡ pos (terms.price * quantity) }
{
    i64::from(terms.price) * i64::from(quantity)
}

/// What a quantity that goes into one zone feeds into another, in kWh.
pub fn fed(quantity: u32, target: u8, zone: usize) -> i64
    ensures { result ≡ into target quantity zone }
{
    if zone == usize::from(target) {
        i64::from(quantity)
    } else {
        0
    }
}

/// The price of a zone, in thousandths of a cent per MWh.
pub fn zone_price(prices: &[i32; MOST_ZONES], zone: u8) -> i64
    ensures value { result ≡ price_in prices.now zone }
    ensures size { unsigned_abs result ≤ 2147483648 }
{
    prices
        .get(usize::from(zone))
        .map_or(0, |price| i64::from(*price))
}

/// An order's price in the unit of zone prices.
pub(crate) fn order_price(price: u32) -> i64
    ensures { result ≡ scaled price }
{
    1000 * i64::from(price)
}

/// Is an order of this size content with a quantity, where each kWh gains so much?
pub(crate) fn content_at(largest: u32, quantity: u32, slope: i64) -> bool
    ensures { Decides result (ContentBySlope largest quantity slope) }
{
    quantity <= largest && (quantity == 0 || slope >= 0) && (quantity == largest || slope <= 0)
}
