//! The reports of a call file: a line for each category over a run of days.

ghost use Rattle.std.specs.Prelude.{◌≡◌, ◌+◌, ◌≤◌, ◌++◌, [], length};
ghost use Rattle.monitor.specs.Texts.{IsTextOf, over_days};
ghost use Rattle.monitor.specs.ReportTable.{report_names, report_fields, report_line, category_line, category_lines, reports_text};

use crate::days::Days;
use crate::refused::{or_fault, run_or_refused};
use crate::replay::Replayed;
use crate::row_text::{ROW_COLUMNS, row_fields};
use arrayvec::ArrayVec;
use book::book::Book;
use book::limits::CATEGORIES;
use reports::report::{Report, single_report};
use reports::run::Run;
use texts::page::{Page, push_line};

/// As many bytes as the reports may take.
pub const REPORT_ROOM: usize = 4096;

/// The columns of a row, two in front of them and three behind.
const REPORT_COLUMNS: usize = ROW_COLUMNS + 5;

/// The columns of a report: those of a row, and the run of days, rates and duration beside them.
#[tactic(auto, unfolding(crate::specs::ReportTable::report_fields, crate::specs::RowText::row_fields))]
fn report_fields(run: Run, category: u64, report: Report) -> ArrayVec<Option<u64>, REPORT_COLUMNS>
    ensures { result.items ≡ report_fields run.first run.last category report }
{
    let mut fields = ArrayVec::new();
    fields.push(Some(run.first));
    fields.push(Some(run.last));
    // There is room for all of them.
    let _ = fields.try_extend_from_slice(&row_fields(category, report.sums));
    fields.push(Some(report.rate_by_number));
    fields.push(Some(report.rate_by_value));
    fields.push(report.duration);
    fields
}

/// The line of a report.
fn push_report<const N: usize>(page: &mut Page<N>, run: Run, category: u64, report: Report)
    requires { length page.old.items + length (report_line run.first run.last category report) ≤ N }
    ensures { page.new.items ≡ page.old.items ++ report_line run.first run.last category report }
{
    push_line(page, &report_fields(run, category, report));
}

/// The line of a category; where its report is refused there is none.
fn push_category<const N: usize>(page: &mut Page<N>, book: &Book, run: Run, category: u64)
    requires { length page.old.items + length (category_line run.first run.last book.now category) ≤ N }
    ensures { page.new.items ≡ page.old.items ++ category_line run.first run.last book.now category }
{
    if let Ok(report) = single_report(book, run.first, run.last, category) {
        push_report(page, run, category, report);
    }
}

/// The lines of categories 0 to 9.
#[tactic(auto, using(crate::proofs::Joined::numbers_more))]
fn push_categories<const N: usize>(page: &mut Page<N>, book: &Book, run: Run)
    requires { length page.old.items + length (category_lines run.first run.last book.now) ≤ N }
    ensures { page.new.items ≡ page.old.items ++ category_lines run.first run.last book.now }
{
    for category in 0..CATEGORIES + 1 {
        push_category(page, book, run, category);
    }
}

/// The names line, and the lines of the run of days that is asked for, or that it is refused.
#[tactic(auto, using(crate::proofs::Answered::refused_short))]
fn push_reports(page: &mut Page<REPORT_ROOM>, book: &Book, days: Days)
    requires { page.old.items ≡ [] }
    ensures { page.new.items ≡ over_days report_names category_lines days book.now }
{
    let names =
        b"first,last,category,total_n,settled_n,sec_n,cash_n,total_v,settled_v,sec_v,cash_v,isd_v,rate_n,rate_v,duration\n";
    if let Some(run) = run_or_refused(page, names, book, days) {
        push_categories(page, book, run);
    }
}

/// The reports of a file.
pub fn write_reports(file: &[u8], days: Days, page: &mut Page<REPORT_ROOM>)
    ensures { IsTextOf (reports_text days) file.now page.new.items }
{
    let mut replayed = Replayed::fresh();
    if let Ok(()) = or_fault(page, replayed.replay(file)) {
        push_reports(page, &replayed.book, days);
    }
}
