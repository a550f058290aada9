//! The hours of a stream: each command is a call of the box, and is answered by a line.
#![tactic(auto)]

mod answering;
mod calls;
mod hearing;

pub use calls::call_of;
pub use hearing::hear_hours;
