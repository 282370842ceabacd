//! The participants with the highest fail rates of a call file, by number and by value over a run of days.

ghost use Rattle.std.specs.Prelude.{◌≡◌, ◌+◌, ◌≤◌, ◌++◌, [], length};
ghost use Rattle.std.specs.List.{flat_map};
ghost use Rattle.monitor.specs.Texts.{IsTextOf, over_days};
ghost use Rattle.monitor.specs.ListTable.{list_names, measure_text, participant_line, list_lines, both_lists, lists_text};

use crate::days::Days;
use crate::refused::{or_fault, run_or_refused};
use crate::replay::Replayed;
use book::book::Book;
use book::figures::Measure;
use ranking::participant::Participant;
use ranking::runs::highest_rates;
use reports::run::Run;
use texts::page::{Page, push, push_line};

/// As many bytes as the lists may take.
pub const LIST_ROOM: usize = 8192;

/// The measure, and a comma.
fn push_measure<const N: usize>(page: &mut Page<N>, measure: Measure)
    requires { length page.old.items + length (measure_text measure) ≤ N }
    ensures { page.new.items ≡ page.old.items ++ measure_text measure }
{
    match measure {
        Measure::Number => push(page, b"number,"),
        Measure::Value => push(page, b"value,"),
    }
}

/// The line of a participant.
#[tactic(auto, using(crate::proofs::Joined::two_parts))]
fn push_participant<const N: usize>(page: &mut Page<N>, measure: Measure, participant: Participant)
    requires { length page.old.items + length (participant_line measure participant) ≤ N }
    ensures { page.new.items ≡ page.old.items ++ participant_line measure participant }
{
    push_measure(page, measure);
    push_line(
        page,
        &[
            Some(participant.code),
            Some(participant.fails),
            Some(participant.total),
        ],
    );
}

/// A line for each of a list.
fn push_list<const N: usize>(page: &mut Page<N>, measure: Measure, list: &[Participant])
    requires { length page.old.items + length (flat_map (participant_line measure) list.now) ≤ N }
    ensures { page.new.items ≡ page.old.items ++ flat_map (participant_line measure) list.now }
{
    for participant in list {
        push_participant(page, measure, *participant);
    }
}

/// The lines of a list; where it is refused there is none.
fn push_highest<const N: usize>(page: &mut Page<N>, book: &Book, run: Run, measure: Measure)
    requires { length page.old.items + length (list_lines run.first run.last book.now measure) ≤ N }
    ensures { page.new.items ≡ page.old.items ++ list_lines run.first run.last book.now measure }
{
    if let Ok(list) = highest_rates(book, run.first, run.last, measure) {
        push_list(page, measure, &list);
    }
}

/// The lines of both lists, by number first.
#[tactic(auto, using(crate::proofs::Joined::two_parts))]
fn push_both<const N: usize>(page: &mut Page<N>, book: &Book, run: Run)
    requires { length page.old.items + length (both_lists run.first run.last book.now) ≤ N }
    ensures { page.new.items ≡ page.old.items ++ both_lists run.first run.last book.now }
{
    push_highest(page, book, run, Measure::Number);
    push_highest(page, book, run, Measure::Value);
}

/// The names line, and both lists over the run of days that is asked for, or that it is refused.
#[tactic(auto, using(crate::proofs::Answered::refused_short))]
fn push_lists(page: &mut Page<LIST_ROOM>, book: &Book, days: Days)
    requires { page.old.items ≡ [] }
    ensures { page.new.items ≡ over_days list_names both_lists days book.now }
{
    if let Some(run) = run_or_refused(page, b"measure,code,fails,total\n", book, days) {
        push_both(page, book, run);
    }
}

/// The lists of a file.
pub fn write_lists(file: &[u8], days: Days, page: &mut Page<LIST_ROOM>)
    ensures { IsTextOf (lists_text days) file.now page.new.items }
{
    let mut replayed = Replayed::fresh();
    if let Ok(()) = or_fault(page, replayed.replay(file)) {
        push_lists(page, &replayed.book, days);
    }
}
