//! The report of a run of days: the sums of its rows, its fail rates and its average duration. docs/RULES.md, 'A report'.
ghost use Rattle.std.specs.Prelude.{◌≡◌};
ghost use Rattle.reports.specs.Reports.{report_of, report_answer};

use crate::run::Run;
use crate::sums::sums;
use book::book::Book;
use book::calls::Refusal;
use book::limits::CATEGORIES;
use book::rows::Row;
use rates::{average_duration, fail_rate};

/// What is reported of a run of days.
#[derive(Clone, Copy, Debug, Default, PartialEq, Eq)]
pub struct Report {
    /// The sums of the rows.
    pub sums: Row,
    /// Fails by total, in hundredths of a percent.
    pub rate_by_number: u64,
    /// The same of their values.
    pub rate_by_value: u64,
    /// In hundredths of a day; absent where no fail was counted on its own ISD.
    pub duration: Option<u64>,
}

impl Report {
    /// The report of rows that add up to these sums.
    fn of(sums: Row) -> Report
        ensures { result ≡ report_of sums }
    {
        let fails = sums.securities.saturating_add(sums.cash);
        Report {
            sums,
            rate_by_number: fail_rate(fails.number, sums.total.number),
            rate_by_value: fail_rate(fails.value, sums.total.value),
            duration: average_duration(fails.value, sums.isd_value),
        }
    }
}

/// The report from the first to the last day, both included, of a category, 0 for all nine together. Number 2: a category over
/// 9; 9: the first day after the last, or the last not closed.
pub fn single_report(book: &Book, first: u64, last: u64, category: u64) -> Result<Report, Refusal>
    ensures { result ≡ report_answer first last category book.now }
{
    if category > CATEGORIES {
        return Err(Refusal::OutOfRange);
    }
    let run = Run::of(book, first, last)?;
    let sums = sums(book, run, category)?;
    Ok(Report::of(sums))
}
