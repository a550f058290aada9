//! What an accepted sheet amounts to.

use auction::PerHouse;

/// Welfare in thousandths of a cent; the rent, and what each house pays, in millionths.
#[derive(Clone, Copy, PartialEq, Eq, Debug)]
pub struct Verdict {
    pub welfare: i64,
    pub rent: i64,
    pub amounts: PerHouse<i64>,
}
