//! Lines of numbers as text: the one definition of such a text (docs/RULES.md, 'The calls as text'), and its one writer.
#![tactic(auto)]

ghost use Rattle.texts.specs.Worked.{WorkedLines};

pub mod page;

/// The lines and buffers worked by hand are what the definitions give.
#[tactic(auto, using(crate::proofs::Worked::worked_lines))]
pub fn worked_lines_hold()
    ensures { WorkedLines }
{}
