//! The fails book: matched pairs of settlement instructions (SIs), the calls, the figures of each day. The rules are in
//! docs/RULES.md, and specs/ has a module for each of their sections.
#![tactic(auto)]

pub mod book;
pub mod calls;
pub mod figures;
pub mod limits;
pub mod pairs;
pub mod rows;
pub mod sides;
