//! The table of calls: what stands in the columns of each call's line.
//!
//! It is said here and in `specs/Table`. The reader takes it from here, and so will whoever writes or lends the numbers of
//! calls.

ghost use Rattle.std.specs.Prelude.{◌≡◌, MatchOption};
ghost use Rattle.lines.specs.Table.{numbers_of, call_made, highest_of, IsNoCall};

use book::calls::Call;
use book::pairs::Entry;

/// Columns of a call file.
pub const COLUMNS: usize = 9;

/// Calls, numbered from 1 on.
pub const CALLS: u64 = 6;

/// Values of a line: the numbers behind the call's number.
pub(crate) const VALUES: usize = COLUMNS - 1;

/// A field has up to 11 digits: its number is below this.
const SHORT_LIMIT: u64 = 100_000_000_000;

/// The numbers of a call's line. A column that the call doesn't use is 0.
pub fn numbers_of(call: &Call) -> [u64; COLUMNS]
    ensures { result ≡ numbers_of call.now }
{
    match *call {
        Call::Enter(
            Entry {
                id,
                kind,
                category,
                isd,
                side,
                amount,
                deliverer,
                receiver,
            },
        ) => [
            1, id, kind, category, isd, side, amount, deliverer, receiver,
        ],
        Call::Hold { id, side, on } => [2, id, 0, 0, 0, side, on, 0, 0],
        Call::Lack { id, lack } => [3, id, 0, 0, 0, lack, 0, 0, 0],
        Call::Settle { id, part } => [4, id, 0, 0, 0, 0, part, 0, 0],
        Call::Cancel { id } => [5, id, 0, 0, 0, 0, 0, 0, 0],
        Call::Close => [6, 0, 0, 0, 0, 0, 0, 0, 0],
    }
}

/// The call that a number makes with the values behind it. Those that it doesn't use are not looked at.
pub(crate) fn call_made(number: u64, values: &[u64]) -> Call
    ensures { result ≡ call_made number values.now }
{
    let [id, kind, category, isd, side, amount, deliverer, receiver] = *values else {
        return Call::Close;
    };
    match number {
        1 => Call::Enter(Entry {
            id,
            kind,
            category,
            isd,
            side,
            amount,
            deliverer,
            receiver,
        }),
        2 => Call::Hold {
            id,
            side,
            on: amount,
        },
        3 => Call::Lack { id, lack: side },
        4 => Call::Settle { id, part: amount },
        5 => Call::Cancel { id },
        _ => Call::Close,
    }
}

/// The highest number of each column of a call's line: 0 where the call doesn't use it.
pub(crate) fn highest_of(number: u64) -> [u64; COLUMNS]
    ensures { result ≡ highest_of number }
{
    numbers_of(&call_made(number, &[SHORT_LIMIT - 1; VALUES]))
}

/// The call with these numbers. None has them where the first is no call's number, or one that the call doesn't use isn't 0.
pub fn call_of(numbers: &[u64; COLUMNS]) -> Option<Call>
    ensures { MatchOption result (IsNoCall numbers.now) (λ call. numbers_of call ≡ numbers.now) }
{
    let call = call_made(numbers[0], &numbers[1..]);
    if numbers_of(&call) == *numbers {
        Some(call)
    } else {
        None
    }
}
