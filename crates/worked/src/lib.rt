//! Small hours worked out by hand: their verdicts follow from the rules.
#![tactic(auto)]

ghost use Rattle.worked.specs.Settled.{SettledRun};
ghost use Rattle.worked.specs.Table.{WorkedCases};

/// Each sheet of the table gets the verdict that stands beside it, and the first one's amounts are as stated.
pub fn worked_cases_stand()
    ensures { WorkedCases }
{}

/// There is a run, with only right answers, that settles an hour: what is promised of runs is promised of something.
pub fn a_settled_run_stands()
    ensures { SettledRun }
{}
