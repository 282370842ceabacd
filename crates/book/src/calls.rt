//! The calls, and why anything that is asked of the book is refused.
ghost use Rattle.std.specs.Prelude.{◌≡◌};
ghost use Rattle.book.specs.Calls.{refusal_number, answer_number};

use crate::pairs::Entry;

/// A call with its values, which may be any numbers. The customer asked for an enum case with its numbers for each.
#[derive(Clone, Copy, Debug, PartialEq, Eq)]
pub enum Call {
    /// A pair is entered; its matching happens today.
    Enter(Entry),
    /// The hold of a side, 1 deliverer or 2 receiver, goes on (1) or off (0).
    Hold { id: u64, side: u64, on: u64 },
    /// What the pair lacks: 0 nothing, 1 securities, 2 cash.
    Lack { id: u64, lack: u64 },
    /// A part of the rest settles: euro cents of one SI.
    Settle { id: u64, part: u64 },
    /// The pair ends.
    Cancel { id: u64 },
    /// The day ends: what is due and open fails.
    Close,
}

/// Why a call, a row, a report, a file or a text is refused.
#[derive(Clone, Copy, Debug, PartialEq, Eq)]
pub enum Refusal {
    /// All 64 days are closed.
    Finished,
    /// A value is out of its range.
    OutOfRange,
    /// The id isn't above all accepted ones.
    IdSpent,
    /// 1,024 pairs are open.
    BookFull,
    /// No pair of that id is open.
    NotOpen,
    /// Today is before the pair's intended settlement date.
    NotDue,
    /// A side is on hold.
    OnHold,
    /// The part is 0, or more than the rest.
    WrongPart,
    /// Of a row or a run of days: its last day isn't closed, or its first is after its last.
    NotClosed,
    /// Of a call file: its names line is wrong, or it is over 65,536 bytes.
    FaultyFile,
    /// Of a row as text: the buffer is under 128 bytes.
    ShortBuffer,
}

/// What comes back from a call.
pub type Answer = Result<(), Refusal>;

impl Refusal {
    /// Its number: docs/RULES.md, 'Numbers given back'. The customer asked for a definition by cases.
    pub fn number(self) -> u64
        ensures { result ≡ refusal_number self }
    {
        match self {
            Refusal::Finished => 1,
            Refusal::OutOfRange => 2,
            Refusal::IdSpent => 3,
            Refusal::BookFull => 4,
            Refusal::NotOpen => 5,
            Refusal::NotDue => 6,
            Refusal::OnHold => 7,
            Refusal::WrongPart => 8,
            Refusal::NotClosed => 9,
            Refusal::FaultyFile => 10,
            Refusal::ShortBuffer => 11,
        }
    }
}

/// The number that came back from a call, 0 where none did.
pub fn number_of(answer: Answer) -> u64
    ensures { result ≡ answer_number answer }
{
    match answer {
        Ok(()) => 0,
        Err(refusal) => refusal.number(),
    }
}
