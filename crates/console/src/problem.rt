//! What keeps a program from writing its text.

use std::fmt;

/// Why no text is written, or not all of it.
#[derive(Clone, Copy, Debug, PartialEq, Eq)]
pub enum Problem {
    /// The arguments are not the days of a report.
    ReportDays,
    /// The arguments are not the days of a list.
    ListDays,
    /// A read of the call file failed.
    Input,
    /// A write of the text failed.
    Output,
}

impl fmt::Display for Problem {
    ghost use Rattle.std.specs.Prelude.{Some};
    ghost use Rattle.console.specs.Problem.{message};

    ghost output = { λ problem. Some (message problem) };

    fn fmt<W: fmt::Write>(&self, f: &mut fmt::Formatter<W>) -> fmt::Result {
        f.write_str(match self {
            Problem::ReportDays => "the days of a report are two numbers, the first and the last",
            Problem::ListDays => "the days of a list are two numbers, the first and the last",
            Problem::Input => "standard input can't be read",
            Problem::Output => "standard output can't be written",
        })
    }
}

impl Problem {
    /// Says it on standard error.
    pub fn say<R: Eprint>(self, rt: &R) {
        let _ = eprintln!(rt; "girpelso: {self}");
    }
}
