//! Reports over runs of days. docs/RULES.md, 'A report'.
#![tactic(auto)]

ghost use Rattle.reports.specs.OfRows.{DaysOfRun, RowsAreGiven, ReportsAreOfRows};
ghost use Rattle.reports.specs.Nine.{NineAreSingle, NineCarryOne, RefusedAreEmpty};

pub mod nine;
pub mod report;
pub mod run;
mod sums;

/// A report is that of the rows which the row call gives for its days, and these are all days of the run.
pub fn reports_are_of_rows()
    ensures days { DaysOfRun }
    ensures given { RowsAreGiven }
    ensures sums { ReportsAreOfRows }
{}

/// Each of the nine reports is the category's own, all nine carry the same answer, and refused they have no figures.
pub fn nine_are_single()
    ensures single { NineAreSingle }
    ensures one { NineCarryOne }
    ensures empty { RefusedAreEmpty }
{}
