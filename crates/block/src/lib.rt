//! The network block of a stream: from its first command to the one that opens the box.
#![tactic(auto)]

mod draft;
mod layered;
mod phases;

pub use draft::Draft;
pub use layered::{Layered, Stage};
pub use phases::{Phase, allow};
