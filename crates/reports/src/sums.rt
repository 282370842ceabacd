//! The rows of a run of days, added up.
ghost use Rattle.std.specs.Prelude.{◌≡◌, ◌≤◌, true, Ok};
ghost use Rattle.book.specs.Limits.{category_count};
ghost use Rattle.book.specs.Rows.{is_closed};
ghost use Rattle.reports.specs.Sums.{add_row, sums_of};
ghost use Rattle.reports.specs.Reports.{rows_of};

use crate::run::Run;
use book::book::Book;
use book::calls::Refusal;
use book::rows::Row;

/// The sum of two rows, figure by figure.
fn add(sums: Row, row: Row) -> Row
    ensures { result ≡ add_row sums row }
{
    Row {
        total: sums.total.saturating_add(row.total),
        settled: sums.settled.saturating_add(row.settled),
        securities: sums.securities.saturating_add(row.securities),
        cash: sums.cash.saturating_add(row.cash),
        isd_value: sums.isd_value.saturating_add(row.isd_value),
    }
}

/// The sums of the rows of a run of closed days and a category, 0 for all nine together. Each of these rows is given.
pub(crate) fn sums(book: &Book, run: Run, category: u64) -> Result<Row, Refusal>
    requires closed { is_closed run.last book.now ≡ true }
    requires category { category ≤ category_count }
    ensures { result ≡ Ok (sums_of (rows_of run.first run.last category book.now)) }
{
    let mut sums = Row::default();
    for day in run.first..run.last + 1 {
        sums = add(sums, book.row(day, category)?);
    }
    Ok(sums)
}
