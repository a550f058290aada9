//! The box: orders, sheets and accounts over one network, for any network and any three kinds of orders.
#![tactic(auto)]

mod calling;
mod closings;
mod judging;
mod lists;
mod openings;
mod state;

pub use state::ClearingBox;
