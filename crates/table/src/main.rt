//! Reads a call file on standard input, and writes its table.
#![tactic(auto)]

use console::run;
use console::text::Text;

fn main(rt: HostRuntime) {
    run(&rt, Text::Table);
}
