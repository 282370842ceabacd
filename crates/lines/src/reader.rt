//! The reader of lines: the lent text and a position.

ghost use Rattle.std.specs.Prelude.{◌≡◌, ◌-◌, ◌≤◌, length, position};
ghost use Rattle.std.specs.List.{after_first};
ghost use Rattle.std.specs.Iterator.{at_most};
ghost use Rattle.lines.specs.Parts.{line_read};
ghost use Rattle.lines.specs.Reading.{IsReading, is_line_feed};

use crate::line::read_call;
use book::calls::Call;

/// What a line is read as.
///
/// It is the customer's wish that the answer of a line is an enum of the project's own, with a case that carries the call and
/// a case that carries a position.
#[derive(Clone, Copy, Debug, PartialEq, Eq)]
pub enum Line {
    /// A correct line: its call.
    Correct(Call),
    /// A wrong line: the place of its first wrong byte, counted from 0 at the line's start.
    Wrong(usize),
}

/// Where a text's first LF is.
fn line_feed(text: &[u8]) -> Option<usize>
    ensures { result ≡ position is_line_feed text.now }
{
    text.iter().position(|byte| *byte == b'\n')
}

/// What stands behind a text's first LF: nothing where there is none.
#[tactic(auto, using(std::proofs::lemmas::Bool::Decides::nat_tests, std::proofs::lemmas::List::drop_all))]
fn behind_line_feed(text: &[u8]) -> &[u8]
    ensures { result.now ≡ after_first is_line_feed text.now }
{
    match line_feed(text) {
        Some(end) => &text[end + 1..],
        None => &[],
    }
}

/// The place in a text of what is left of it.
fn place_of(text: &[u8], left: &[u8]) -> usize
    requires { length left.now ≤ length text.now }
    ensures { result ≡ length text.now - length left.now }
{
    text.len() - left.len()
}

/// The line at a text's start, where a byte is left, and what is left behind it.
#[tactic(auto, using(crate::proofs::Readings::from_wrong))]
fn first_line(text: &[u8]) -> (Line, &[u8])
    ensures line { result.0 ≡ (line_read text.now).0 }
    ensures left { result.1.now ≡ (line_read text.now).1 }
{
    match read_call(text) {
        Ok((call, left)) => (Line::Correct(call), left),
        Err(left) => (Line::Wrong(place_of(text, left)), behind_line_feed(left)),
    }
}

/// The line at a place of the text, which may be any number, and the place where the next one starts; with no byte left there
/// is no line.
#[tactic(auto, using(crate::proofs::Readings::left_within))]
pub fn read_line(text: &[u8], at: usize) -> Option<(Line, usize)>
    ensures { IsReading text.now at result }
{
    if at < text.len() {
        let (_, rest) = text.split_at(at);
        let (line, left) = first_line(rest);
        Some((line, at + place_of(rest, left)))
    } else {
        None
    }
}

/// The lines of a text, from a position on.
///
/// It is the customer's wish that the reader is a thin struct over the lent bytes and a position, and that functions on slice
/// and number do the work.
#[derive(Clone, Copy, Debug)]
pub struct Lines<'a> {
    /// The text.
    pub text: &'a [u8],
    /// Where the next line starts, which may be any number.
    pub at: usize,
}

impl<'a> Lines<'a> {
    /// The lines of a text, from its start.
    pub fn new(text: &'a [u8]) -> Lines<'a>
        ensures text { result.text ≡ text.entry }
        ensures at { result.at ≡ 0 }
    {
        Lines { text, at: 0 }
    }
}

impl Iterator for Lines<'_> {
    ghost use Rattle.lines.specs.Reading.{GivesLine};

    type Item = Line;

    ghost next_gives = { GivesLine };

    ghost remaining = { λ lines. at_most (length lines.text.now - lines.at) };

    fn next(&mut self) -> Option<Line> {
        let (line, next) = read_line(self.text, self.at)?;
        self.at = next;
        Some(line)
    }
}
