//! The fail rate and the average duration of a report, and two rates compared exactly.
#![tactic(auto)]

ghost use Rattle.std.specs.Prelude.{◌≡◌, ◌+◌, ◌*◌, ◌^◌, ◌<◌, option_map};
ghost use Rattle.std.specs.List.{AllByRecursion};
ghost use Rattle.rates.specs.Stored.{capped};
ghost use Rattle.rates.specs.Rate.{rate, duration, half_up, is_higher, RoundsHalfUp};
ghost use Rattle.rates.specs.Worked.{Claim, examples};

/// The quotient rounded half up, as it is stored: up to the largest number of 64 bits.
fn rounded(top: u128, bottom: u64) -> u64
    requires positive { 0 < bottom }
    requires fits { 2 * top + bottom < 2 ^ 128 }
    ensures { result ≡ capped (half_up top bottom) }
{
    let bottom = u128::from(bottom);
    u64::try_from((2 * top + bottom) / (2 * bottom)).unwrap_or(u64::MAX)
}

/// The fail rate in hundredths of a percent, half up; 0 where the total is 0.
pub fn fail_rate(fails: u64, total: u64) -> u64
    ensures { result ≡ capped (rate fails total) }
{
    if total == 0 {
        return 0;
    }
    rounded(u128::from(fails) * 10_000, total)
}

/// The average duration of fails in hundredths of a day, half up; absent where no fail was counted on its own ISD.
pub fn average_duration(fail_values: u64, isd_values: u64) -> Option<u64>
    ensures { result ≡ option_map capped (duration fail_values isd_values) }
{
    if isd_values == 0 {
        return None;
    }
    Some(rounded(u128::from(fail_values) * 100, isd_values))
}

/// Whether one rate is higher than another, of fails to a total above 0 each: multiplied out, so that nothing is rounded.
pub fn is_higher(fails: u64, total: u64, other_fails: u64, other_total: u64) -> bool
    ensures { result ≡ is_higher fails total other_fails other_total }
{
    u128::from(other_fails) * u128::from(total) < u128::from(fails) * u128::from(other_total)
}

/// The worked examples are what the definitions give.
pub fn worked_examples()
    ensures { AllByRecursion Claim examples }
{}

/// A quotient is rounded to the nearest whole number, and half up.
pub fn quotients_are_rounded_half_up()
    ensures { RoundsHalfUp }
{}
