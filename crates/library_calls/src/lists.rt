//! Lists of participants: by number and by value over a run of days, and refused ones.

use crate::books::{three_categories, worked_file};
use book::book::Book;
use book::figures::Measure;
use ranking::runs::highest_rates;
use std::io;

/// The word of a measure.
fn word_of(measure: Measure) -> &'static str {
    match measure {
        Measure::Number => "number",
        Measure::Value => "value",
    }
}

/// The list of a measure over a run of days, each entry as code: fails of total, or the number that comes back.
fn say_list<R: Print>(
    rt: &R,
    book: &Book,
    first: u64,
    last: u64,
    measure: Measure,
) -> io::Result<()> {
    print!(rt; "list by {}, days {first} to {last}", word_of(measure))?;
    match highest_rates(book, first, last, measure) {
        Ok(list) => {
            print!(rt; ":")?;
            for entry in list.iter() {
                print!(rt; " {}: {} of {};", entry.code, entry.fails, entry.total)?;
            }
            println!(rt; "")
        }
        Err(refusal) => println!(rt; " is refused by {}", refusal.number()),
    }
}

/// Lists of the worked file and of another book, and refused ones.
pub fn of_runs<R: Print>(rt: &R) -> io::Result<()> {
    println!(rt; "\nLists of participants")?;
    let book = worked_file();
    say_list(rt, &book, 0, 3, Measure::Number)?;
    say_list(rt, &book, 0, 3, Measure::Value)?;
    say_list(rt, &book, 3, 3, Measure::Value)?;
    say_list(rt, &three_categories(), 0, 0, Measure::Number)?;
    println!(rt; "\nRefused lists: last day not closed, first after last")?;
    say_list(rt, &book, 0, 4, Measure::Number)?;
    say_list(rt, &book, 0, u64::MAX, Measure::Value)?;
    say_list(rt, &book, 3, 2, Measure::Value)
}
