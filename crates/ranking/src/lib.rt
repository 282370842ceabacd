//! The participants with the highest fail rates. docs/RULES.md, 'Highest fail rates'.
#![tactic(auto)]

ghost use Rattle.ranking.specs.Meaning.{WhoIsListed, EachOnce, InWhichOrder, HowManyAtMost, OneListOf, CodesRise};
ghost use Rattle.ranking.specs.Worked.{WorkedLists};

pub mod participant;
pub mod ranks;
pub mod runs;

/// What a list is, of any participants with distinct codes.
pub fn lists_mean()
    ensures who { WhoIsListed }
    ensures once { EachOnce }
    ensures order { InWhichOrder }
    ensures most { HowManyAtMost }
    ensures only { OneListOf }
{}

/// The participants of a run of days have distinct codes.
pub fn codes_rise()
    ensures { CodesRise }
{}

/// The lists worked by hand are what the definitions give.
pub fn worked_lists_hold()
    ensures { WorkedLists }
{}
