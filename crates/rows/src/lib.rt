//! The numbers of orders in rows, as every list of orders with a price, a quantity and at most two zones keeps them.
#![tactic(auto)]

mod changes;
mod ranges;
mod reads;
mod row;
mod table;

pub use auction::bounds::{MOST_KWH, MOST_ORDERS, MOST_PRICE};
pub use row::Row;
pub use table::Rows;
