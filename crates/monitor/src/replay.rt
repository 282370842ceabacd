//! A call file replayed on a fresh book.

ghost use Rattle.std.specs.Prelude.{◌≡◌, [], IfOk, IfErr};
ghost use Rattle.monitor.specs.Replay.{IsSound, IsReplayed, IsRefused, IsReplayOf, BalancesFor, answer_to_line, after_line, is_accepted, replayed};

use book::book::Book;
use book::calls::{Answer, Refusal};
use lines::reader::{Line, Lines};
use lines::written::behind_names;

/// As many bytes as a call file may have.
pub const FILE_LIMIT: usize = 65_536;

/// Room for one byte more, so that whoever reads a file sees that it is too long.
pub const FILE_ROOM: usize = FILE_LIMIT + 1;

/// What comes of a line.
///
/// It has the shape of a `Result`, and is none: a wrong line is no error of a call, and `Result<Answer, usize>` would be a
/// `Result` in a `Result`.
#[derive(Clone, Copy, Debug, PartialEq, Eq)]
pub enum LineAnswer {
    /// Its call was made: what came back.
    Made(Answer),
    /// No call was made: the place of its first wrong byte, from the line's start.
    WrongByte(usize),
}

/// What the lines of a call file leave: the book, and how many of them were accepted and refused.
#[derive(Clone, Debug, PartialEq, Eq, Drop)]
pub struct Replayed {
    pub book: Book,
    pub accepted: u64,
    pub refused: u64,
}

impl LineAnswer {
    /// Whether no number came back from a call that was made.
    pub fn is_accepted(self) -> bool
        ensures { result ≡ is_accepted self }
    {
        match self {
            LineAnswer::Made(answer) => answer.is_ok(),
            LineAnswer::WrongByte(_) => false,
        }
    }
}

/// The lines of a file, behind its names line. Refused by 10: a names line that is missing or wrong, and more than 65,536
/// bytes.
pub(crate) fn lines_of(file: &[u8]) -> Result<Lines<'_>, Refusal>
    ensures sound { IfOk result (λ lines. IsSound file.now lines.text.now) }
    ensures start { IfOk result (λ lines. lines.at ≡ 0) }
    ensures faulty { IfErr result (λ refusal. IsRefused file.now refusal) }
{
    if file.len() > FILE_LIMIT {
        return Err(Refusal::FaultyFile);
    }
    match behind_names(file) {
        Some(rest) => Ok(Lines::new(rest)),
        None => Err(Refusal::FaultyFile),
    }
}

/// A line's call is made; a wrong line leaves the book the same.
pub(crate) fn make(book: &mut Book, line: Line) -> LineAnswer
    ensures answer { result ≡ answer_to_line book.old line }
    ensures book { book.new ≡ after_line book.old line }
{
    match line {
        Line::Correct(call) => LineAnswer::Made(book.apply(call)),
        Line::Wrong(place) => LineAnswer::WrongByte(place),
    }
}

impl Replayed {
    /// No line yet: a fresh book.
    pub(crate) fn fresh() -> Replayed
        ensures { result ≡ replayed [] }
    {
        Replayed {
            book: Book::fresh(),
            accepted: 0,
            refused: 0,
        }
    }

    /// The lines of a file, one after another, made in place: a book handed back would be copied. Refused by 10: a faulty file.
    pub(crate) fn replay(&mut self, file: &[u8]) -> Answer
        requires fresh { self.old ≡ replayed [] }
        ensures replays { IfOk result (λ _. IsReplayed file.now self.new) }
        ensures balances { IfOk result (λ _. BalancesFor file.now self.new.book) }
        ensures faulty { IfErr result (λ refusal. IsRefused file.now refusal) }
    {
        let lines = lines_of(file)?;
        for line in lines {
            if make(&mut self.book, line).is_accepted() {
                self.accepted += 1;
            } else {
                self.refused += 1;
            }
        }
        Ok(())
    }
}

/// What the lines of a file leave, made one after another on a fresh book. Refused by 10: a faulty file.
pub fn replay(file: &[u8]) -> Result<Replayed, Refusal>
    ensures replays { IsReplayOf file.now result }
    ensures balances { IfOk result (λ r. BalancesFor file.now r.book) }
{
    let mut replayed = Replayed::fresh();
    replayed.replay(file)?;
    Ok(replayed)
}
