//! Each call has exactly one right answer, so the calls alone decide all answers: see specs/. No code; each function stands for the law that its contract states.
#![tactic(auto)]

ghost use Rattle.history.specs.Events.{Kinds};
ghost use Rattle.one_answer.specs.Answers.{Answerable, OneAnswerLaw, OneRunLaw, SomeVerdictLaw};
ghost use Rattle.one_answer.specs.Power.{power_kinds};
ghost use Rattle.one_answer.specs.Wishes;

use kinds::{TransferWish, ZoneWish};

/// Every sheet breaks no rule, or one first, at a first place.
pub fn some_verdict_stands()
    ensures { SomeVerdictLaw }
{}

/// Any three types of wishes with any meaning, as long as the questions about a wish can be answered. All meanings together are too many for a contract to speak of, so each law below is stated for every type that has one.
pub trait ThreeKinds {
    type First;

    type Second;

    type Third;

    /// What the three lists take.
    ghost kinds: { Kinds Self.First Self.Second Self.Third };

    ghost answerable: { Answerable kinds };
}

/// Whatever the network and whatever was called and answered before, each call has exactly one right answer.
pub fn one_answer_stands<K: ThreeKinds>()
    ensures { OneAnswerLaw K.ThreeKinds.kinds }
{}

/// Each list of calls has exactly one history in which every answer is right.
pub fn one_run_stands<K: ThreeKinds>()
    ensures { OneRunLaw K.ThreeKinds.kinds }
{}

/// Offers, bids and transfers.
pub struct Power;

impl ThreeKinds for Power {
    type First = ZoneWish;

    type Second = ZoneWish;

    type Third = TransferWish;

    ghost kinds = { power_kinds };

    ghost answerable = { Wishes.answerable };
}

/// Both laws for offers, bids and transfers, with no premise.
pub fn power_stands()
    ensures { OneAnswerLaw power_kinds × OneRunLaw power_kinds }
{
    one_answer_stands::<Power>();
    one_run_stands::<Power>();
}
