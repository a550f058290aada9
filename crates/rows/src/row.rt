//! The plain numbers of one order.

use auction::House;

/// Whose order it is, whether it stands, its zones, its price in cents per MWh and its largest quantity in kWh. Where a kind of order has one zone, the second is that zone again.
#[derive(Clone, Copy, PartialEq, Eq, Debug)]
pub struct Row {
    pub house: House,
    pub standing: bool,
    pub first: u8,
    pub second: u8,
    pub price: u32,
    pub quantity: u32,
}
