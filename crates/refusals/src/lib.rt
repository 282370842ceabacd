//! The lowest number that applies comes back, and none without its condition.
#![tactic(auto)]

ghost use Rattle.refusals.specs.Table.{LowestIsOne, LowestIsReturned, LowestByTheCalls, NumbersTellApart};

/// Of every book and call; and distinct answers have distinct numbers.
#[tactic(auto, using(crate::proofs::Table::one_lowest, crate::proofs::Table::lowest, crate::proofs::Table::apart, crate::proofs::ByCalls::by_calls))]
pub fn refused_by_the_lowest()
    ensures one { LowestIsOne }
    ensures lowest { LowestIsReturned }
    ensures by_calls { LowestByTheCalls }
    ensures apart { NumbersTellApart }
{}
