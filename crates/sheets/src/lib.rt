//! A house's sheet: the quantities, lambda and shadow prices that it proposes for an hour.
#![tactic(auto)]

mod fills;
mod reads;
mod sheet;

pub use auction::bounds::{MOST_LINES, MOST_ORDERS};
pub use sheet::Sheet;
