//! A network that is a tree of zones: each zone but 0 hangs on a zone with a smaller number.
#![tactic(auto)]

mod grown;
mod growth;
mod lines;

use auction::bounds::MOST_ZONES;
pub use grown::{Link, Tree};

/// A tree has a link for each zone but zone 0.
pub const MOST_LINKS: usize = MOST_ZONES - 1;
