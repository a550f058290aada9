//! The flows over the lines of a network, the prices of its zones and its congestion rent, with the rules about them.
#![tactic(auto)]

mod lines;
mod numbers;
mod prices;

pub use lines::{in_balance, lines_bind, lines_within_limits};
pub use prices::{rent_of, zone_prices};
