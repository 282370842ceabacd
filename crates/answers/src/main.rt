//! Reads a call file on standard input, and writes what came of each of its lines.
#![tactic(auto)]

use console::run;
use console::text::Text;

fn main(rt: HostRuntime) {
    run(&rt, Text::Answers);
}
