//! From a reader to a writer, in memory of fixed size.

ghost use Rattle.std.specs.Prelude.{◌≡◌, ◌+◌, ◌<◌, ◌≤◌, length, take, drop, Ok, IfOk, OnOk, IfSome};
ghost use Rattle.std.specs.Io.{ReadsAtMost};
ghost use Rattle.std.specs.Io.KnownBytes.{Consumes, IsAtEnd, Keeps};
ghost use Rattle.console.specs.Texts.{WritesText};

use crate::problem::Problem;
use crate::text::{Text, write_text_of};
use monitor::replay::FILE_ROOM;
use std::io;
use std::io::{Read, Write};

/// One read, behind the bytes that stand before a place.
fn read_at<R: Read>(reader: &mut R, buffer: &mut [u8], at: usize) -> io::Result<usize>
    requires { at < length buffer.old }
    ensures front { take at buffer.new ≡ take at buffer.old }
    ensures fits { IfOk result (λ count. at + count ≤ length buffer.new) }
    ensures read { IfOk result (λ count. Consumes (R.remaining reader.old) (R.remaining reader.new) (take count (drop at buffer.new))) }
    ensures end { IfOk result (λ count. count ≡ 0 → IsAtEnd (R.remaining reader.new)) }
{
    reader.read(&mut buffer[at..])
}

/// Reads until the buffer is full or the input ends: so many bytes, which stand at the buffer's start. A loop over `read`, since
/// std's `read_to_end` wants a heap, and the programs have none.
pub fn read_all<R: Read>(reader: &mut R, buffer: &mut [u8]) -> io::Result<usize>
    ensures counted { ReadsAtMost result buffer.new }
    ensures read { IfOk result (λ count. IfSome (R.remaining reader.old) (λ input. take count buffer.new ≡ take (length buffer.new) input)) }
{
    let mut at = 0;
    while at < buffer.len() {
        let count = read_at(reader, buffer, at)?;
        if count == 0 {
            break;
        }
        at += count;
    }
    Ok(at)
}

/// Writes the text of what a reader gives, and nothing else. A longer file than any that has a text isn't read to its end.
/// Where a read fails nothing is written.
pub fn write_text<R: Read, W: Write>(
    asked: Text,
    reader: &mut R,
    writer: &mut W,
) -> Result<(), Problem>
    ensures written { OnOk result (IfSome (R.remaining reader.old) (λ input.
        WritesText asked input (W.contents writer.old) (W.contents writer.new))) }
    ensures unread { result ≡ Err Problem.Input → Keeps (W.contents writer.old) (W.contents writer.new) }
{
    let mut file = [0; FILE_ROOM];
    let Ok(count) = read_all(reader, &mut file) else {
        return Err(Problem::Input);
    };
    write_text_of(asked, &file[..count], writer).map_err(|_| Problem::Output)?;
    Ok(())
}
