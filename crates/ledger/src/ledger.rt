//! What a ledger holds.

ghost use Rattle.std.specs.Prelude.{◌≡◌, ◌<◌, ◌≤◌, true};
ghost use Rattle.auction.specs.Bounds.{most_hours, most_tries};
ghost use Rattle.ledger.specs.Phases.{is_closed};

use crate::accounts::Accounts;
use crate::phase::Phase;

/// The phase of the present hour, the sheets judged in it, and the accounts since the opening. A closed hour can still be settled: the accounts have room for it.
#[derive(Clone, Copy)]
pub struct Ledger {
    pub(crate) phase: Phase,
    pub(crate) tries: u16,
    pub(crate) accounts: Accounts,
    ghost few: { tries ≤ most_tries },
    ghost room: { (is_closed phase ≡ true → accounts.settled < most_hours) },
}
