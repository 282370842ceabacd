//! What follows from the definitions of `specs/` for every text: each function's contract is a theorem.

ghost use Rattle.std.specs.Prelude.{◌≡◌, ℕ, ◌^◌, ◌<◌, List, ◌++◌, drop, Option, option_map};
ghost use Rattle.std.specs.List.{after_first};
ghost use Rattle.book.specs.declared.calls.Call.{Call};
ghost use Rattle.lines.specs.declared.reader.Line.{Line};
ghost use Rattle.lines.specs.Decimals.{IsDecimal};
ghost use Rattle.lines.specs.Grammar.{HasShortFields, line_of};
ghost use Rattle.lines.specs.Reading.{is_line_feed, AreLines, IsLineAt, IsReading, IsRight, GoesOn};
ghost use Rattle.lines.specs.Texts.{ArePieces, RoundTrip};
ghost use Rattle.lines.specs.Table.{CallsAreNumbers};
ghost use Rattle.lines.specs.Written.{names_line};
ghost use Rattle.lines.specs.Worked.{WorkedHold};

/// Each call is its numbers; which numbers are a call's, and which are none's.
#[tactic(auto, using(crate::proofs::Calls::calls_are_numbers))]
pub fn calls_are_numbers()
    ensures { CallsAreNumbers }
{}

/// Each number has one text, with no leading zero, and at most 11 digits exactly below the limit of a field's number.
pub fn one_decimal()
    ensures { (number : ℕ) → number < 2 ^ 64 → IsDecimal number }
{}

/// Two calls with the same line are one, and no line begins another: what was written is read again, whatever follows it.
#[tactic(auto, using(crate::proofs::Calls::one_line))]
pub fn one_line()
    ensures { (one other : Call) (rest more : List ℕ) → HasShortFields one → HasShortFields other
        → line_of one ++ rest ≡ line_of other ++ more → (one ≡ other) × (rest ≡ more) }
{}

/// What is read at a place is a call exactly where that call's line stands there, a place exactly where that is the first
/// wrong byte's, and nothing exactly where no byte is left.
#[tactic(auto, using(crate::proofs::Readings::right_reading))]
pub fn right_reading()
    ensures { (text : List ℕ) (at : ℕ) (read : Option (Line × ℕ)) → IsReading text at read
        → IsRight (drop at text) (option_map (λ (line, next). line) read) }
{}

/// Reading goes on behind the first LF from the line's start on, which is the first from a wrong byte on.
#[tactic(auto, using(crate::proofs::Files::goes_on))]
pub fn goes_on()
    ensures { (text : List ℕ) (at : ℕ) (line : Line) (next : ℕ) → IsLineAt text at line next → GoesOn text at line next }
{}

/// Each text has lines.
#[tactic(auto, using(crate::proofs::Scanned::has_lines))]
pub fn has_lines()
    ensures { (text : List ℕ) (at : ℕ) → (lines : List Line) × AreLines text at lines }
{}

/// A text is read in one way.
#[tactic(auto, using(crate::proofs::Readings::one_reading))]
pub fn one_reading()
    ensures { (text : List ℕ) (at : ℕ) (one other : List Line) → AreLines text at one → AreLines text at other → one ≡ other }
{}

/// The lines of a text from a place on are its pieces from there on, cut behind each LF, each read by itself.
#[tactic(auto, using(crate::proofs::Files::lines_are_pieces))]
pub fn lines_are_pieces()
    ensures { (text : List ℕ) (at : ℕ) (lines : List Line) → AreLines text at lines → ArePieces (drop at text) lines }
{}

/// Behind the names line stands the first call line.
pub fn names_next()
    ensures { (rest : List ℕ) → after_first is_line_feed (names_line ++ rest) ≡ rest }
{}

/// A file that is written reads as the same calls; equal calls mean equal bytes, and equal bytes equal calls.
pub fn round_trip()
    ensures { (text : List ℕ) (calls : List Call) → RoundTrip text calls }
{}

/// The worked lines and texts are read as they say.
#[tactic(auto, using(crate::proofs::WorkedTexts::worked_lines))]
pub fn worked_lines()
    ensures { WorkedHold }
{}
