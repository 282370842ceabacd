//! Rates and durations of any numbers, and rates compared: products that pass 64 bits, halves, zeros, and results that don't
//! fit.

use rates::{average_duration, fail_rate, is_higher};
use std::io;

/// The largest number.
const LARGEST: u64 = u64::MAX;

/// Rates, and then durations.
pub fn rates_and_durations<R: Print>(rt: &R) -> io::Result<()> {
    println!(rt; "\nRates and durations of numbers")?;
    for (fails, total) in [
        (3, 8),
        (7, 21),
        (1, 32),
        (0, 0),
        (82_594_580_000_000_000, 83_884_800_000_000_000),
        (288_230_376_151_711_744, 9_223_372_036_854_775_808),
        (LARGEST, LARGEST),
        (LARGEST, 10_000),
        (LARGEST, 9_999),
    ] {
        println!(rt; "rate of {fails} in {total}: {}", fail_rate(fails, total))?;
    }
    for (fail_values, isd_values) in [
        (38_000, 18_000),
        (82_594_580_000_000_000, 2),
        (38_000, 0),
        (LARGEST, LARGEST - 1),
        (LARGEST, 1),
    ] {
        print!(rt; "duration of {fail_values} over {isd_values}: ")?;
        match average_duration(fail_values, isd_values) {
            Some(hundredths) => println!(rt; "{hundredths}")?,
            None => println!(rt; "-")?,
        }
    }
    Ok(())
}

/// Rates that are the same in hundredths of a percent, level ones, and products of 128 bits that differ by 1.
pub fn rates_compared<R: Print>(rt: &R) -> io::Result<()> {
    println!(rt; "\nRates compared")?;
    for (fails, total, other_fails, other_total) in [
        (1, 3, 3_333, 10_000),
        (3_333, 10_000, 1, 3),
        (1, 3, 2, 6),
        (LARGEST - 1, LARGEST, LARGEST - 2, LARGEST - 1),
        (LARGEST - 2, LARGEST - 1, LARGEST - 1, LARGEST),
        (LARGEST, LARGEST, LARGEST, LARGEST),
    ] {
        let word = if is_higher(fails, total, other_fails, other_total) {
            "is"
        } else {
            "is not"
        };
        println!(rt; "{fails} of {total} {word} higher than {other_fails} of {other_total}")?;
    }
    Ok(())
}
