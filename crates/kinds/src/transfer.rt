//! Transfers: energy fed into one zone and taken from another.

use super::Terms;

mod kind;

pub use kind::TransferWish;

/// An order that feeds energy into its first zone, takes as much from its second, and is worth its price, in cents per MWh. Its quantity is the largest, in kWh.
#[derive(Clone, Copy)]
pub struct Transfer {
    first: u8,
    second: u8,
    terms: Terms,
}
