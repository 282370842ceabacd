//! A page, which is a text of bounded length in memory of its own, and what is put behind its bytes.
//!
//! These functions ask their caller for room, so none of them refuses. Each text that is made with them is proved to fit its
//! page, whatever the file: so no call of a customer's asks for anything.

ghost use Rattle.std.specs.Prelude.{◌≡◌, ◌+◌, ◌≤◌, ◌++◌, length, min};
ghost use Rattle.texts.specs.Lines.{field_text, line_text, written};

use arrayvec::ArrayVec;
use itoa::Buffer;

/// At most `N` bytes.
pub type Page<const N: usize> = ArrayVec<u8, N>;

/// Bytes.
pub fn push<const N: usize>(page: &mut Page<N>, bytes: &[u8])
    requires { length page.old.items + length bytes.now ≤ N }
    ensures { page.new.items ≡ page.old.items ++ bytes.now }
{
    let _ = page.try_extend_from_slice(bytes);
}

/// A field: a number in decimal, and `-` where there is none.
pub fn push_field<const N: usize>(page: &mut Page<N>, field: Option<u64>)
    requires { length page.old.items + length (field_text field) ≤ N }
    ensures { page.new.items ≡ page.old.items ++ field_text field }
{
    match field {
        Some(number) => {
            let mut digits = Buffer::new();
            push(page, digits.format(number).as_bytes());
        }
        None => push(page, b"-"),
    }
}

/// A line: fields with commas between them, and LF.
pub fn push_line<const N: usize>(page: &mut Page<N>, fields: &[Option<u64>])
    requires { length page.old.items + length (line_text fields.now) ≤ N }
    ensures { page.new.items ≡ page.old.items ++ line_text fields.now }
{
    let mut left = fields;
    while let Some((field, others)) = left.split_first() {
        push_field(page, *field);
        if !others.is_empty() {
            push(page, b",");
        }
        left = others;
    }
    push(page, b"\n");
}

/// The bytes of a page at a lent buffer's start, as many as it has room for, and how many these are. The bytes behind them stay.
pub fn write_to<const N: usize>(page: &Page<N>, buffer: &mut [u8]) -> usize
    ensures count { result ≡ min (length page.now.items) (length buffer.old) }
    ensures buffer { buffer.new ≡ written page.now.items buffer.old }
    ensures room { length page.now.items ≤ N }
{
    let count = page.len().min(buffer.len());
    buffer[..count].copy_from_slice(&page[..count]);
    count
}
