//! A list of orders of any kind whose orders have a price, a quantity and at most two zones: the list is written once, a kind says only what is its own.
#![tactic(auto)]

mod kind;
mod listed;

pub use kind::Kind;
pub use listed::Listed;
