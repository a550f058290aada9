//! The first order of a book that takes what it may not, or is not content, whatever its kind.
#![tactic(auto)]

mod places;
mod rules;

pub use places::{orders_content, quantities_possible};
