//! The course of an hour, and what is read of a ledger.

ghost use Rattle.std.specs.Prelude.{◌≡◌, ◌<◌, MatchResult};
ghost use Rattle.auction.specs.Bounds.{most_hours, most_tries};
ghost use Rattle.auction.specs.declared.Refusal.TheVariants.{NoTry};
ghost use Rattle.auction.specs.Refusals.{Answered, Always};
ghost use Rattle.ledger.specs.Phases.{is_closed};
ghost use Rattle.ledger.specs.Pages.{page, paid_by, first_page, closed_page, tried_page, new_page, settled_page};

use crate::accounts::Accounts;
use crate::ledger::Ledger;
use crate::phase::Phase;
use auction::bounds::{MOST_HOURS, MOST_TRIES};
use auction::{Fault, House, PerHouse, Refusal};

impl Ledger {
    /// An open hour, with nothing tried, settled or paid.
    pub fn opening() -> Ledger
        ensures { page result ≡ first_page }
    {
        Ledger {
            phase: Phase::Open,
            tries: 0,
            accounts: Accounts {
                settled: 0,
                paid: PerHouse { zero: 0, one: 0 },
                rent: 0,
            },
        }
    }

    pub fn phase(&self) -> Phase
        ensures { is_closed result ≡ (page self.now).closed }
    {
        self.phase
    }

    /// Closes the hour, if it can still be settled.
    pub fn close(&mut self) -> Result<(), Fault>
        ensures { Answered result Always Always ((page self.old).settled < most_hours) (λ _. page self.new ≡ closed_page (page self.old)) (self.new ≡ self.old) }
    {
        if self.accounts.settled >= MOST_HOURS {
            return Err(Fault::NoPlace);
        }
        self.phase = Phase::Closed;
        Ok(())
    }

    /// Uses up one try, if one is left.
    pub fn spend_try(&mut self) -> Result<(), Refusal>
        ensures { MatchResult result (λ _. ((page self.old).tries < most_tries) × (page self.new ≡ tried_page (page self.old))) (λ refusal. ((page self.old).tries < most_tries → ⊥) × (refusal ≡ NoTry) × (self.new ≡ self.old)) }
    {
        if self.tries >= MOST_TRIES {
            return Err(Refusal::NoTry);
        }
        self.tries += 1;
        Ok(())
    }

    /// Posts a closed hour to the accounts and starts a new open hour; an open hour stays as it is.
    pub fn settle(&mut self, amounts: PerHouse<i64>, rent: i64)
        ensures { page self.new ≡ settled_page (page self.old) amounts.zero amounts.one rent }
    {
        if self.phase == Phase::Closed {
            self.start_anew();
            self.accounts = self.accounts.posted(amounts, rent);
        }
    }

    /// Starts a new open hour without money.
    pub fn start_anew(&mut self)
        ensures { page self.new ≡ new_page (page self.old) }
    {
        self.phase = Phase::Open;
        self.tries = 0;
    }

    /// What a house has paid since the opening.
    pub fn account(&self, house: House) -> i128
        ensures { result ≡ paid_by (page self.now) house }
    {
        *self.accounts.paid.of(house)
    }

    /// The congestion rent of all hours settled since the opening.
    pub fn rent_account(&self) -> i128
        ensures { result ≡ (page self.now).rent }
    {
        self.accounts.rent
    }

    /// How many hours were settled.
    pub fn settled_hours(&self) -> u16
        ensures { result ≡ (page self.now).settled }
    {
        self.accounts.settled
    }
}
