//! The participants over a run of days, and the list of the highest rates among them. docs/RULES.md, 'Highest fail rates'.
ghost use Rattle.std.specs.Prelude.{◌≡◌, true, map, Ok};
ghost use Rattle.book.specs.Limits.{largest_code};
ghost use Rattle.book.specs.Pairs.{is_within};
ghost use Rattle.book.specs.Rows.{is_closed, summary_at};
ghost use Rattle.reports.specs.Sums.{days};
ghost use Rattle.ranking.specs.Runs.{summaries_over, participant_of, participants_of, list_answer};

use crate::participant::Participant;
use crate::ranks::{List, PARTICIPANTS, highest};
use book::book::Book;
use book::calls::Refusal;
use book::figures::{Measure, Summary};
use reports::run::Run;

/// The summaries of a participant over a run of closed days, added up. Each of them is given.
fn sums(book: &Book, run: Run, code: u64) -> Result<Summary, Refusal>
    requires closed { is_closed run.last book.now ≡ true }
    requires code { is_within 1 largest_code code ≡ true }
    ensures { result ≡ Ok (summaries_over (map (λ day. summary_at book.now.summaries day code) (days run.first run.last))) }
{
    let mut sums = Summary::default();
    for day in run.first..run.last + 1 {
        sums = sums.saturating_add(book.summary(day, code)?);
    }
    Ok(sums)
}

/// The participant of that code over a run of closed days.
fn participant(book: &Book, run: Run, measure: Measure, code: u64) -> Result<Participant, Refusal>
    requires closed { is_closed run.last book.now ≡ true }
    requires code { is_within 1 largest_code code ≡ true }
    ensures { result ≡ Ok (participant_of run.first run.last measure book.now code) }
{
    let Summary { total, fails } = sums(book, run, code)?;
    Ok(Participant {
        code,
        fails: fails.in_measure(measure),
        total: total.in_measure(measure),
    })
}

/// All of them.
fn participants(
    book: &Book,
    run: Run,
    measure: Measure,
) -> Result<[Participant; PARTICIPANTS], Refusal>
    requires { is_closed run.last book.now ≡ true }
    ensures { result ≡ Ok (participants_of run.first run.last measure book.now) }
{
    let mut all = [Participant::default(); PARTICIPANTS];
    for place in 0..PARTICIPANTS {
        all[place] = participant(book, run, measure, place as u64 + 1)?;
    }
    Ok(all)
}

/// The ten participants with the highest fail rates, and everyone level with the tenth, from the first to the last day, both
/// included: the highest rate first, and of equal rates the lower code. Number 9 as for a report.
pub fn highest_rates(book: &Book, first: u64, last: u64, measure: Measure) -> Result<List, Refusal>
    ensures { result ≡ list_answer first last measure book.now }
{
    let run = Run::of(book, first, last)?;
    Ok(highest(&participants(book, run, measure)?))
}
