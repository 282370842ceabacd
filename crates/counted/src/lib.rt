//! The figures are the plain sums of what the pairs' own calls give.
#![tactic(auto)]

ghost use Rattle.counted.specs.Counted.{RowsAreSums, SummariesAreSums, NoneIsCapped};
ghost use Rattle.counted.specs.PlainSums.{SumsArePlain, RowsAreBounded};

/// After every list of calls.
#[tactic(auto, using(crate::proofs::Rows::rows, crate::proofs::Rows::summary_total, crate::proofs::Rows::summary_fails, crate::proofs::Rows::bounded))]
pub fn figures_are_plain_sums()
    ensures rows { RowsAreSums }
    ensures summaries { SummariesAreSums }
    ensures bounded { NoneIsCapped }
{}

/// After every list of calls; and so every row that is given is bounded.
#[tactic(auto, using(crate::proofs::Plain::plain, crate::proofs::Plain::rows_bounded))]
pub fn sums_are_plain()
    ensures sums { SumsArePlain }
    ensures bounds { RowsAreBounded }
{}
