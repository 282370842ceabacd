//! What came of each line of a call file.

ghost use Rattle.std.specs.Prelude.{◌≡◌, ◌+◌, ◌≤◌, ◌++◌, [], length};
ghost use Rattle.monitor.specs.Texts.{IsTextOf};
ghost use Rattle.lines.specs.Written.{names_line};
ghost use Rattle.monitor.specs.Replay.{file_limit};
ghost use Rattle.monitor.specs.Answers.{answer_line, answers_text, AreAnswers};

use crate::refused::or_fault;
use crate::replay::{FILE_LIMIT, LineAnswer, lines_of, make};
use book::book::Book;
use book::calls::number_of;
use lines::reader::Lines;
use texts::page::{Page, push, push_field, push_line};

/// As many bytes as the answers may take: 18 for each byte of a file.
pub const ANSWER_ROOM: usize = 18 * FILE_LIMIT;

/// The line of an answer.
#[tactic(auto, using(crate::proofs::Joined::three_parts))]
fn push_answer<const N: usize>(page: &mut Page<N>, number: u64, answer: LineAnswer)
    requires { length page.old.items + length (answer_line number answer) ≤ N }
    ensures { page.new.items ≡ page.old.items ++ answer_line number answer }
{
    match answer {
        LineAnswer::Made(answer) => {
            push_line(page, &[Some(number), Some(number_of(answer)), None]);
        }
        LineAnswer::WrongByte(place) => {
            push_field(page, Some(number));
            push(page, b",wrong,");
            push_line(page, &[Some(place as u64)]);
        }
    }
}

/// The names line, and a line for each of the lines of a file.
fn push_answers(page: &mut Page<ANSWER_ROOM>, lines: Lines<'_>)
    requires empty { page.old.items ≡ [] }
    requires start { lines.at ≡ 0 }
    requires short { length lines.text.now + length names_line ≤ file_limit }
    ensures { AreAnswers lines.entry.text.now page.new.items }
{
    push(page, b"line,answer,place\n");
    let mut book = Book::fresh();
    for (number, line) in (1..).zip(lines) {
        push_answer(page, number, make(&mut book, line));
    }
}

/// What came of each line of a file.
pub fn write_answers(file: &[u8], page: &mut Page<ANSWER_ROOM>)
    ensures { IsTextOf answers_text file.now page.new.items }
{
    if let Ok(lines) = or_fault(page, lines_of(file)) {
        push_answers(page, lines);
    }
}
