//! Reads a call file on standard input, and writes the participants with the highest fail rates, by number and by value, over
//! all closed days or, with two arguments, from the first day to the last.
#![tactic(auto)]

use console::arguments::asked_days;
use console::problem::Problem;
use console::run;
use console::text::Text;

fn main(rt: HostRuntime) {
    match asked_days(&rt) {
        Some(days) => run(&rt, Text::Lists(days)),
        None => Problem::ListDays.say(&rt),
    }
}
