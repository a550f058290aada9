//! A list of up to so many items in a place of its own size: no memory is asked for, and a list of items that can be copied can be copied.
#![tactic(auto)]

mod grown;
mod list;
mod reads;

pub use list::Filled;
