//! Reports: of one category over a run of days, refused ones, and those of all nine categories in one call.

use crate::books::{paragraph_27, three_categories, worked_file};
use book::book::Book;
use book::calls::number_of;
use reports::nine::nine_reports;
use reports::report::{Report, single_report};
use std::{fmt, io};

/// A report's columns.
#[derive(Drop)]
struct Columns(Report);

impl fmt::Display for Columns {
    fn fmt<W: fmt::Write>(&self, f: &mut fmt::Formatter<W>) -> fmt::Result {
        let Report {
            sums,
            rate_by_number,
            rate_by_value,
            duration,
        } = self.0;
        write!(
            f,
            "{},{},{},{},",
            sums.total.number, sums.settled.number, sums.securities.number, sums.cash.number
        )?;
        write!(
            f,
            "{},{},{},{},",
            sums.total.value, sums.settled.value, sums.securities.value, sums.cash.value
        )?;
        write!(f, "{},{rate_by_number},{rate_by_value},", sums.isd_value)?;
        match duration {
            Some(hundredths) => write!(f, "{hundredths}"),
            None => f.write_str("-"),
        }
    }
}

/// The report of a run of days and a category, or the number that comes back.
fn say_report<R: Print>(
    rt: &R,
    book: &Book,
    first: u64,
    last: u64,
    category: u64,
) -> io::Result<()> {
    print!(rt; "report of category {category}, days {first} to {last}")?;
    match single_report(book, first, last, category) {
        Ok(report) => println!(rt; ": {}", Columns(report)),
        Err(refusal) => println!(rt; " is refused by {}", refusal.number()),
    }
}

/// All nine categories: the number that came back, 0 where none did, and the figures.
fn say_nine<R: Print>(rt: &R, book: &Book, first: u64, last: u64) -> io::Result<()> {
    for (i, given) in nine_reports(book, first, last).into_iter().enumerate() {
        let number = number_of(given.answer);
        println!(rt;
            "category {}, number {number}: {}",
            i + 1,
            Columns(given.report)
        )?;
    }
    Ok(())
}

/// The worked file: a report of one category, and refused ones.
pub fn of_one_category<R: Print>(rt: &R) -> io::Result<()> {
    let book = worked_file();
    println!(rt; "\nA report of the worked file")?;
    say_report(rt, &book, 1, 2, 1)?;
    println!(rt; "\nRefused reports: last day not closed, first after last, category over 9")?;
    for (first, last, category) in [
        (0, 4, 0),
        (0, u64::MAX, 0),
        (3, 2, 0),
        (0, 3, 10),
        (3, 2, 10),
    ] {
        say_report(rt, &book, first, last, category)?;
    }
    Ok(())
}

/// Paragraph 27 of the guidelines: the fail rate of each day, and of the four together. Its 35.50% for day 3 is a slip: 37.50%.
pub fn of_single_days<R: Print>(rt: &R) -> io::Result<()> {
    println!(rt; "\nGuidelines, paragraph 27")?;
    let book = paragraph_27();
    for (first, last) in [(0, 0), (1, 1), (2, 2), (3, 3), (0, 3)] {
        say_report(rt, &book, first, last, 0)?;
    }
    Ok(())
}

/// Nine reports that are refused, and nine that are given.
pub fn of_nine_categories<R: Print>(rt: &R) -> io::Result<()> {
    println!(rt; "\nAll nine categories, days 0 to 4, of which the last is not closed")?;
    say_nine(rt, &worked_file(), 0, 4)?;
    println!(rt; "\nPairs in categories 1, 5 and 9")?;
    say_nine(rt, &three_categories(), 0, 0)
}
