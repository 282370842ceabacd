//! Lines to be read. All values of a line are used, so that none is left unread.
ghost use Rattle.std.specs.Prelude.{◌≡◌};

use book::calls::Call;
use lines::reader::{Line, Lines};
use lines::table::{CALLS, numbers_of};
use monitor::replay::FILE_LIMIT;

/// A line of an enter.
const LINE: &[u8; 34] = b"1,12345,1,5,20,1,1234567890,12,34\n";

/// Lines of an enter, as many as a file holds; the last is cut off.
fn full_file() -> [u8; FILE_LIMIT] {
    let mut text = [0; FILE_LIMIT];
    for (i, byte) in text.iter_mut().enumerate() {
        *byte = LINE[i % LINE.len()];
    }
    text
}

/// The sum of a call's values, over the end of 64 bits.
fn sum_of_call(call: &Call) -> u64 {
    let numbers = numbers_of(call);
    numbers[1..]
        .iter()
        .fold(0u64, |sum, value| sum.wrapping_add(*value))
}

/// The sum of these over the lines of a text; a wrong line counts by its place.
fn sum_of_lines(text: &[u8]) -> u64 {
    let mut sum = 0u64;
    for line in Lines::new(text) {
        sum = sum.wrapping_add(match line {
            Line::Correct(call) => sum_of_call(&call),
            Line::Wrong(place) => place as u64,
        });
    }
    sum
}

/// A full file read so many times, so that no compiler can read it once for all: another call number in its first line each
/// time, which mostly makes that line wrong. The sum at the last.
#[unsafe(no_mangle)]
pub extern "C" fn reads(times: u64) -> u64
    ensures { times ≡ 0 → result ≡ 0 }
{
    let mut text = full_file();
    let mut sum = 0;
    for n in 0..times {
        text[0] = b'1' + (n % CALLS) as u8;
        sum = sum_of_lines(&text);
    }
    sum
}
