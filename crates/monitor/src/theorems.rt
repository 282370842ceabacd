//! What follows from the definitions of `specs/` for every call file: each function's contract is a theorem.

ghost use Rattle.std.specs.Prelude.{ℕ, List};
ghost use Rattle.lines.specs.declared.reader.Line.{Line};
ghost use Rattle.monitor.specs.Worked.{TextsHold, RowsHold};
ghost use Rattle.monitor.specs.Theorems.{CountsAreLines, FilesAreRead, CallsAreRead, OneListOfLines, OneText, TablesFit, ReportsFit, ListsFit, AnswersFit};

/// The counts are those of the lines behind the names line, and the accepted lines are the accepted calls.
pub fn counts_are_lines()
    ensures { (file : List ℕ) (lines : List Line) → CountsAreLines file lines }
{}

/// A file that is written of some calls has these calls.
pub fn calls_are_read()
    ensures lines { FilesAreRead }
    ensures calls { CallsAreRead }
{}

/// Of each file there is one list of lines, and one text of each kind.
pub fn one_text_of_each_file()
    ensures lines { OneListOfLines }
    ensures text { OneText }
{}

/// No text is longer than its room, whatever the file and the run of days.
pub fn texts_fit()
    ensures tables { TablesFit }
    ensures reports { ReportsFit }
    ensures lists { ListsFit }
    ensures answers { AnswersFit }
{}

/// The worked files have the texts that were worked by hand, and the worked rows theirs.
#[tactic(auto, using(crate::proofs::WorkedTexts::texts_hold, crate::proofs::WorkedTexts::rows_hold))]
pub fn worked_texts()
    ensures texts { TextsHold }
    ensures rows { RowsHold }
{}
