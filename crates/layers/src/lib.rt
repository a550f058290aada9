//! What can be laid over a network, and is a network again: watched lines of its own, and capacity that is held back.
#![tactic(auto)]

mod amounts;
mod held;
mod monitored;

pub use auction::bounds::MOST_MONITORED as MOST_WATCHED;
pub use held::HeldBack;
pub use monitored::Monitored;
