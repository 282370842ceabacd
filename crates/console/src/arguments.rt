//! The days that a program is asked for by its arguments.

use monitor::days::{Days, parse_day};
use std::env::FillError;
use std::rt::Env;

/// With no argument all closed days, with two those from the first to the last; other arguments ask for no days.
pub fn asked_days<R: Env>(rt: &R) -> Option<Days> {
    if !has_argument(rt, 1) {
        return Some(Days::AllClosed);
    }
    if has_argument(rt, 3) {
        return None;
    }
    Some(Days::FromTo(day_at(rt, 1)?, day_at(rt, 2)?))
}

/// Whether there are so many arguments, the program's name aside.
fn has_argument<R: Env>(rt: &R, i: usize) -> bool {
    !matches!(rt.arg(i, &mut [0u8; 1]), Err(FillError::NotPresent))
}

/// The day that an argument says; one that is missing or has more than 32 bytes says none.
fn day_at<R: Env>(rt: &R, i: usize) -> Option<u64> {
    let mut digits = [0u8; 32];
    let count = rt.arg(i, &mut digits).ok()?;
    parse_day(&digits[..count])
}
