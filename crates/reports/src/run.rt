//! A run of days. docs/RULES.md, 'A report'.
ghost use Rattle.std.specs.Prelude.{◌≡◌, ◌<◌, ◌≤◌, IfOk, IfErr, is_ok};
ghost use Rattle.book.specs.Limits.{day_limit};

use book::book::Book;
use book::calls::Refusal;

/// The days from a first to a last, both included.
#[derive(Clone, Copy, Debug, PartialEq, Eq)]
pub struct Run {
    pub first: u64,
    pub last: u64,
    pub ghost in_order: { first ≤ last },
    pub ghost within: { last < day_limit },
}

impl Run {
    ghost use Rattle.reports.specs.Reports.{is_run};

    /// The run that is asked for by two numbers, as callers have them. Number 9: the first day after the last, or the last not
    /// closed.
    pub fn of(book: &Book, first: u64, last: u64) -> Result<Run, Refusal>
        ensures given { is_ok result ≡ is_run first last book.now }
        ensures days { IfOk result (λ run. (run.first ≡ first) × (run.last ≡ last)) }
        ensures refused { IfErr result (λ refusal. refusal ≡ Refusal.NotClosed) }
    {
        if first <= last && book.is_closed(last) {
            Ok(Run { first, last })
        } else {
            Err(Refusal::NotClosed)
        }
    }
}
