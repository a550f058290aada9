//! Offers, bids and transfers, and a list for each.
#![tactic(auto)]

mod buying;
mod linear;
mod selling;
mod side;
mod terms;
mod transfer;

pub use buying::{Bid, Buying};
pub use linear::{ZoneWish, fed, zone_price};
use listed::Listed;
pub use selling::{Offer, Selling};
pub use side::{Side, ZoneOrder};
pub use terms::Terms;
pub use transfer::{Transfer, TransferWish};

pub type Offers = Listed<Offer>;

pub type Bids = Listed<Bid>;

pub type Transfers = Listed<Transfer>;
