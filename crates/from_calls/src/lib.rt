//! Reports and lists, read off the calls and their answers.
#![tactic(auto)]

ghost use Rattle.from_calls.specs.Reports.{ReportsFromCalls, PlainReports};
ghost use Rattle.from_calls.specs.Lists.{ListsFromCalls, ListsMean, CountedCodesRise};

/// After every list of calls which report is given, and each of its numbers, is read off the calls and their answers.
#[tactic(auto, using(crate::proofs::Reports::from_calls))]
pub fn reports_from_calls()
    ensures given { ReportsFromCalls }
    ensures plain { PlainReports }
{}

/// After every list of calls which list is given, and who stands on it, is read off the calls and their answers.
#[tactic(auto, using(crate::proofs::Lists::from_calls, crate::proofs::Lists::mean))]
pub fn lists_from_calls()
    ensures given { ListsFromCalls }
    ensures mean { ListsMean }
    ensures codes { CountedCodesRise }
{}
