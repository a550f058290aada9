//! The judgement of a sheet, for any network and any three lists of orders.
#![tactic(auto)]

mod judging;
mod measures;
mod money;
mod sums;
mod verdict;

pub use judging::judge;
pub use verdict::Verdict;
