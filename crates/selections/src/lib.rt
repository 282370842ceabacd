//! The daily balance of one pair, and of any selection of pairs.
#![tactic(auto)]

ghost use Rattle.selections.specs.Selections.{SelectionsBalance};
ghost use Rattle.selections.specs.Amounts.{AmountsAreKept};

/// After every list of calls: of one pair, of a category, of a participant, of any pairs.
#[tactic(auto, using(crate::proofs::Whole::balance))]
pub fn every_selection_balances()
    ensures { SelectionsBalance }
{}

/// After every list of calls each pair's amount is its settled parts, the rest at its cancel and its open rest.
#[tactic(auto, using(crate::proofs::Amounts::amounts))]
pub fn amounts_are_kept()
    ensures { AmountsAreKept }
{}
