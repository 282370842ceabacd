//! The monitor: a call file in, its texts out, down to the byte (docs/RULES.md, 'The calls as text').
#![tactic(auto)]

pub mod answers;
pub mod days;
pub mod list_table;
mod refused;
pub mod replay;
pub mod report_table;
pub mod row_text;
pub mod table;
pub mod theorems;
