//! The accounts.

ghost use Rattle.std.specs.Prelude.{◌≤◌};
ghost use Rattle.auction.specs.Bounds.{most_hours};
ghost use Rattle.ledger.specs.Amounts.{FitsHours};

use auction::PerHouse;

/// How many hours were settled, what each house has paid for them, and their congestion rent, in millionths of a cent. 128 bits hold a month of any amounts.
#[derive(Clone, Copy)]
pub struct Accounts {
    pub(crate) settled: u16,
    pub(crate) paid: PerHouse<i128>,
    pub(crate) rent: i128,
    ghost few: { settled ≤ most_hours },
    ghost zero_fits: { FitsHours paid.zero settled },
    ghost one_fits: { FitsHours paid.one settled },
    ghost rent_fits: { FitsHours rent settled },
}
