//! Calls, lines, tables and lists under names in C, to be timed from outside: bench/run.
#![tactic(auto)]

pub mod calls;
pub mod file_texts;
pub mod lines_read;
