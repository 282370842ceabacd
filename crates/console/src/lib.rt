//! From a call file to its text: what the programs share.
#![tactic(auto)]

pub mod arguments;
pub mod problem;
pub mod streams;
pub mod text;

use crate::streams::write_text;
use crate::text::Text;
use std::io;

/// Writes a text of the call file on standard input to standard output, or says on standard error why there is none.
pub fn run<R: Input + Print + Eprint>(rt: &R, asked: Text) {
    if let Err(problem) = write_text(asked, &mut rt.reader(), &mut io::writer(rt)) {
        problem.say(rt);
    }
}
