//! Cases worked by hand: the edges of the rules, five days of calls with their rows and balance, and reports and lists over them.
#![tactic(auto)]

ghost use Rattle.std.specs.List.{AllByRecursion};
ghost use Rattle.worked.specs.Edges.{Claim, edges};
ghost use Rattle.worked.specs.FiveDays.{WorkedHolds};
ghost use Rattle.worked.specs.Reports.{ExamplesHold};
ghost use Rattle.worked.specs.Lists.{WorkedRuns};

/// Each edge of the list holds of the definitions.
pub fn edges_hold()
    ensures { AllByRecursion Claim edges }
{}

/// The list of calls worked by hand comes to what the definitions give.
#[tactic(auto, using(crate::proofs::Edges::worked_holds))]
pub fn worked_list_holds()
    ensures { WorkedHolds }
{}

/// The reports worked by hand hold of the definitions.
pub fn examples_hold()
    ensures { ExamplesHold }
{}

/// The lists over runs of days worked by hand hold of the definitions.
pub fn worked_runs_hold()
    ensures { WorkedRuns }
{}
