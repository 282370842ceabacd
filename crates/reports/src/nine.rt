//! The reports of all nine categories in one call. docs/RULES.md, 'A report'.
ghost use Rattle.std.specs.Prelude.{◌≡◌, ◌<◌};
ghost use Rattle.book.specs.Limits.{category_count};
ghost use Rattle.reports.specs.Nine.{numbered, one_of_nine, nine_answer};

use crate::report::{Report, single_report};
use book::book::Book;
use book::calls::{Answer, Refusal};
use book::limits::CATEGORIES;
use std::array;

/// The nine categories, as the length of an array.
pub const NINE: usize = CATEGORIES as usize;

/// A category's report among the nine, and beside it what came back.
#[derive(Clone, Copy, Debug, PartialEq, Eq)]
pub struct NumberedReport {
    pub answer: Answer,
    /// Where it is refused, each figure is 0 and the duration absent.
    pub report: Report,
}

impl NumberedReport {
    /// What came back as one of the nine.
    fn of(report: Result<Report, Refusal>) -> NumberedReport
        ensures { result ≡ numbered report }
    {
        match report {
            Ok(report) => NumberedReport {
                answer: Ok(()),
                report,
            },
            Err(refusal) => NumberedReport {
                answer: Err(refusal),
                report: Report::default(),
            },
        }
    }
}

/// The report at one of the nine places.
#[tactic(auto, unfolding(crate::specs::Nine::one_of_nine))]
fn one_of_nine(book: &Book, first: u64, last: u64, place: usize) -> NumberedReport
    requires { place < category_count }
    ensures { result ≡ one_of_nine first last book.now place }
{
    NumberedReport::of(single_report(book, first, last, place as u64 + 1))
}

/// The reports of categories 1 to 9, in their order, from the first to the last day, both included. The customer asked for
/// an array by value of nine structs, so a refusal stands in each of them and not in place of the array.
pub fn nine_reports(book: &Book, first: u64, last: u64) -> [NumberedReport; NINE]
    ensures { result ≡ nine_answer first last book.now }
{
    array::from_fn(|place| one_of_nine(book, first, last, place))
}
