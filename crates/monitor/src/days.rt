//! The days that a program is asked for, and the run of days that a text is over.

ghost use Rattle.std.specs.Prelude.{◌≡◌};
ghost use Rattle.monitor.specs.Days.{parse_day, first_and_last};

use book::limits::DAYS;

/// The days asked for.
///
/// No `Option` of two numbers: all closed days are a choice of their own, and `None` would not say so.
#[derive(Clone, Copy, Debug, PartialEq, Eq)]
pub enum Days {
    AllClosed,
    /// From the first to the last, both included.
    FromTo(u64, u64),
}

/// The day that digits say, 64 for each number over 63; other bytes, and none, say no day.
pub fn parse_day(digits: &[u8]) -> Option<u64>
    ensures { result ≡ parse_day digits.now }
{
    if digits.is_empty() {
        return None;
    }
    let mut day: u64 = 0;
    for byte in digits {
        if !byte.is_ascii_digit() {
            return None;
        }
        day = (day * 10 + u64::from(*byte - b'0')).min(DAYS);
    }
    Some(day)
}

impl Days {
    /// The first and the last of them on a day; where none is closed, day 0, whose text is refused.
    pub(crate) fn first_and_last(self, today: u64) -> (u64, u64)
        ensures { result ≡ first_and_last today self }
    {
        match self {
            Days::AllClosed => (0, today.saturating_sub(1)),
            Days::FromTo(first, last) => (first, last),
        }
    }
}
