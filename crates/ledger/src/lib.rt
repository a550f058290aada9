//! What the box keeps beside orders and sheets: whether the hour is closed, its tries, and the accounts.
#![tactic(auto)]

mod accounts;
mod course;
mod ledger;
mod phase;
mod posting;

pub use accounts::Accounts;
pub use ledger::Ledger;
pub use phase::Phase;
