//! The first call line of a file, by the reader of lines.

use lines::reader::{Line, Lines};
use lines::written::behind_names;
use std::io;

/// What the reader says of a file's first call line.
fn say_first_line<R: Print>(rt: &R, file: &[u8]) -> io::Result<()> {
    match behind_names(file).and_then(|text| Lines::new(text).next()) {
        Some(Line::Correct(_)) => print!(rt; "correct")?,
        Some(Line::Wrong(place)) => print!(rt; "wrong at {place}")?,
        None => print!(rt; "no line")?,
    }
    println!(rt; ": the first call line of a file, by the reader of lines")
}

/// A correct line, one that ends too early, and none.
pub fn of_three_files<R: Print>(rt: &R) -> io::Result<()> {
    println!(rt; "\nThe reader of lines")?;
    say_first_line(
        rt,
        b"call,id,kind,category,day,side,amount,deliverer,receiver\n6,0,0,0,0,0,0,0,0\n",
    )?;
    say_first_line(
        rt,
        b"call,id,kind,category,day,side,amount,deliverer,receiver\n6,0,0\n",
    )?;
    say_first_line(
        rt,
        b"call,id,kind,category,day,side,amount,deliverer,receiver\n",
    )
}
