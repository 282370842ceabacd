//! Rows as text: of one category, refused, and into a buffer that is too short.

use crate::books::{one_pair, worked_file};
use book::book::Book;
use monitor::row_text::{SHORTEST_BUFFER, row_text};
use std::io::{self, Write};

/// The row of a day and a category as a line of the table, or the number that comes back.
fn say_row<R: Print>(rt: &R, book: &Book, day: u64, category: u64) -> io::Result<()> {
    print!(rt; "row of category {category}: ")?;
    let mut buffer = [0; SHORTEST_BUFFER];
    match row_text(book, day, category, &mut buffer) {
        Ok(count) => io::writer(rt).write_all(&buffer[..count]),
        Err(refusal) => println!(rt; "{day} is refused by {}", refusal.number()),
    }
}

/// Each closed day of the worked file in its category, and a day in another; refused: a day that is not closed, and a category
/// over 9.
pub fn of_one_category<R: Print>(rt: &R) -> io::Result<()> {
    println!(rt; "\nRows of the worked file")?;
    let book = worked_file();
    for (day, category) in [(0, 1), (1, 1), (2, 1), (3, 1), (1, 2), (4, 1), (1, 10)] {
        say_row(rt, &book, day, category)?;
    }
    Ok(())
}

/// The row of day 0 as text into a lent buffer, what comes back, and the buffer then.
fn say_buffer<R: Print>(rt: &R, book: &Book, buffer: &mut [u8]) -> io::Result<()> {
    match row_text(book, 0, 0, buffer) {
        Ok(count) => println!(rt; "{count} bytes are written")?,
        Err(refusal) => println!(rt; "the row is refused by {}", refusal.number())?,
    }
    io::writer(rt).write_all(buffer)?;
    println!(rt; "")
}

/// One byte too few, and just enough.
pub fn into_short_buffers<R: Print>(rt: &R) -> io::Result<()> {
    println!(rt; "\nThe number 11, for a row as text into 127 bytes, and then into 128")?;
    let book = one_pair();
    say_buffer(rt, &book, &mut [b'.'; SHORTEST_BUFFER - 1])?;
    say_buffer(rt, &book, &mut [b'.'; SHORTEST_BUFFER])
}
