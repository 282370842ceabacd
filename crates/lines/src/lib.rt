//! Call lines as text: the numbers of each call, and a line read, which is a call or the place of its first wrong byte.
#![tactic(auto)]

mod field;
mod line;
pub mod reader;
pub mod table;
pub mod theorems;
pub mod written;
