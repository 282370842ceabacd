//! One field of a line.

ghost use Rattle.std.specs.Prelude.{◌≡◌, ◌+◌, ◌-◌, ◌*◌, ◌<◌, ◌==◌, true, Ok, Err, IfOk, IfErr};
ghost use Rattle.std.specs.Option.{SomeIff};
ghost use Rattle.lines.specs.Parts.{continues, field_read};
ghost use Rattle.lines.specs.Table.{short_limit};

/// The number with a digit more, where the byte is one that may follow so many digits.
fn with_digit(value: u64, digits: usize, byte: u8, lowest: u64, highest: u64) -> Option<u64>
    requires { value < short_limit }
    ensures { SomeIff result (continues lowest highest (digits == 0) value byte ≡ true) (value * 10 + (byte - 48)) }
{
    if !byte.is_ascii_digit() || (digits > 0 && value == 0) {
        return None;
    }
    let next = value * 10 + u64::from(byte - b'0');
    if lowest <= next && next <= highest {
        Some(next)
    } else {
        None
    }
}

/// The number of a field within its bounds and what is left behind the byte that ends it, or what is left from the first
/// wrong byte on.
#[tactic(auto, using(crate::proofs::Fields::field_loop), unfolding(crate::specs::Parts::field_read))]
pub(crate) fn field(text: &[u8], lowest: u64, highest: u64, end: u8) -> Result<(u64, &[u8]), &[u8]>
    requires { highest < short_limit }
    ensures read { IfOk result (λ read. field_read lowest highest end text.now true 0 ≡ Ok (read.0, read.1.now)) }
    ensures wrong { IfErr result (λ left. field_read lowest highest end text.now true 0 ≡ Err left.now) }
{
    let mut value = 0;
    for (i, byte) in text.iter().enumerate() {
        if i > 0 && *byte == end {
            return Ok((value, &text[i + 1..]));
        }
        match with_digit(value, i, *byte, lowest, highest) {
            Some(next) => value = next,
            None => return Err(&text[i..]),
        }
    }
    Err(&[])
}
