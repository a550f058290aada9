//! What holds of every sheet that breaks no rule, for every network and all orders: each function here stands for the law that its contract states.
#![tactic(auto)]

ghost use Rattle.laws.specs.Laws.{InterchangeLaw, OneVerdictLaw, OptimalityLaw, RentLaw};

/// No other dispatch of the standing orders that is balanced and within all limits is worth more than an accepted one.
pub fn optimality_stands()
    ensures { OptimalityLaw }
{}

/// The amounts of the two houses at an accepted sheet add up to its congestion rent.
pub fn rent_stands()
    ensures { RentLaw }
{}

/// Two accepted sheets of one hour have equal welfare, and each accepts the other's prices.
pub fn interchange_stands()
    ensures { InterchangeLaw }
{}

/// A sheet that breaks a rule has one first rule and place, and is not accepted.
pub fn one_verdict_stands()
    ensures { OneVerdictLaw }
{}
