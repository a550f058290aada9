//! How far an hour has come.

/// An open hour takes orders, a closed one has sheets filled in and judged.
#[derive(Clone, Copy, PartialEq, Eq, Debug)]
pub enum Phase {
    Open,
    Closed,
}
