//! Calls of the libraries that the programs `table`, `report`, `worst` and `answers` don't offer, by running: rows of one
//! category as text, the report of one category or one day, all nine in one call, the list of one measure, what refuses them,
//! rates and durations of any numbers, rates compared, and the reader of lines. The stored output beside src/ is what it must
//! write.
#![tactic(auto)]

mod books;
mod first_lines;
mod lists;
mod numbers;
mod reports_given;
mod rows_as_text;

use std::io;

/// A write that fails is not said: the stored output shows it.
fn main(rt: HostRuntime) {
    let _ = say_all(&rt);
}

fn say_all<R: Print>(rt: &R) -> io::Result<()> {
    println!(rt;
        "A row is day,total_n,settled_n,sec_n,cash_n,total_v,settled_v,sec_v,cash_v,isd_v"
    )?;
    println!(rt;
        "A report is total_n,settled_n,sec_n,cash_n,total_v,settled_v,sec_v,cash_v,isd_v,rate_n,rate_v,duration"
    )?;
    rows_as_text::of_one_category(rt)?;
    rows_as_text::into_short_buffers(rt)?;
    reports_given::of_one_category(rt)?;
    reports_given::of_single_days(rt)?;
    reports_given::of_nine_categories(rt)?;
    lists::of_runs(rt)?;
    numbers::rates_and_durations(rt)?;
    numbers::rates_compared(rt)?;
    first_lines::of_three_files(rt)
}
