//! One line: its values, and the call that it is.

ghost use Rattle.std.specs.Prelude.{◌≡◌, ◌+◌, ◌<◌, Ok, Err, IfOk, IfErr, All, length, ◌==◌, if◌then◌else◌};
ghost use Rattle.lines.specs.Parts.{call_read, values_read};
ghost use Rattle.lines.specs.Table.{short_limit};

use crate::field::field;
use crate::table::{CALLS, VALUES, call_made, highest_of};
use book::calls::Call;

/// What ends the field of a value: a comma where more follow, and else LF.
fn end_of(i: usize) -> u8
    requires { i < VALUES }
    ensures { result ≡ (if i + 1 == VALUES then 10 else 44) }
{
    if i + 1 == VALUES { b'\n' } else { b',' }
}

/// The values of a line and what is left behind it, or what is left from the first wrong byte on.
#[tactic(auto, using(crate::proofs::Fields::values_loop))]
fn values<'a>(text: &'a [u8], highest: &[u64]) -> Result<([u64; VALUES], &'a [u8]), &'a [u8]>
    requires count { length highest.now ≡ VALUES }
    requires short { All (λ most. most < short_limit) highest.now }
    ensures read { IfOk result (λ read. values_read highest.now text.now ≡ Ok (read.0, read.1.now)) }
    ensures wrong { IfErr result (λ left. values_read highest.now text.now ≡ Err left.now) }
{
    let mut values = [0; VALUES];
    let mut left = text;
    for (i, most) in highest.iter().enumerate() {
        let (value, behind) = field(left, 0, *most, end_of(i))?;
        values[i] = value;
        left = behind;
    }
    Ok((values, left))
}

/// The call whose line stands at the start of the text and what is left behind it, or what is left from the first wrong byte
/// on.
#[tactic(auto, unfolding(crate::specs::Parts::call_read))]
pub(crate) fn read_call(text: &[u8]) -> Result<(Call, &[u8]), &[u8]>
    ensures read { IfOk result (λ read. call_read text.now ≡ Ok (read.0, read.1.now)) }
    ensures wrong { IfErr result (λ left. call_read text.now ≡ Err left.now) }
{
    let (number, left) = field(text, 1, CALLS, b',')?;
    let (values, left) = values(left, &highest_of(number)[1..])?;
    Ok((call_made(number, &values), left))
}
