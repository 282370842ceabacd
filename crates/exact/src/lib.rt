//! The figures are the sum of what was posted: the journal.
#![tactic(auto)]

ghost use Rattle.exact.specs.Journal.{CellsAreJournal, SummariesAreJournal, JournalIsByPairs, JournalIsByIds};

/// From every book on; and over any selection of pairs, by their values or by their ids, it is the sum of what their own calls post.
#[tactic(auto, using(crate::proofs::ByPairs::cells, crate::proofs::ByPairs::summaries, crate::proofs::ByPairs::by_pairs, crate::proofs::ByPairs::by_ids))]
pub fn figures_are_the_journal()
    ensures cells { CellsAreJournal }
    ensures summaries { SummariesAreJournal }
    ensures by_pairs { JournalIsByPairs }
    ensures by_ids { JournalIsByIds }
{}
