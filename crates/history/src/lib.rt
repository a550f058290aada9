//! The calls that are made of the box, its answers, and what a list of them tells: see specs/.
#![tactic(auto)]

mod calls;

pub use calls::{Call, Filling, Reply, Wish};
