//! Reads a call file on standard input, and writes its reports over all closed days or, with two arguments, from the first day
//! to the last.
#![tactic(auto)]

use console::arguments::asked_days;
use console::problem::Problem;
use console::run;
use console::text::Text;

fn main(rt: HostRuntime) {
    match asked_days(&rt) {
        Some(days) => run(&rt, Text::Reports(days)),
        None => Problem::ReportDays.say(&rt),
    }
}
