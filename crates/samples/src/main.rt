//! Compares the texts of example files with stored ones. For each NAME among its arguments it reads NAME.csv and makes its table,
//! reports, lists and answers; it writes the NAME and which of NAME.table, NAME.report, NAME.worst and NAME.answers are stored,
//! and says so where one of them is another text.
#![tactic(auto)]

use anyhow::Result;
use console::text::{Text, write_text_of};
use monitor::days::Days;
use std::rt::Files;
use std::{env, fs};

fn main(rt: HostRuntime) -> Result<()> {
    for name in env::args(&rt)?.skip(1) {
        compare_texts(&rt, name.as_str())?;
    }
    Ok(())
}

/// Each text of an example.
fn compare_texts<R: AllocGlobal + Files + Print>(rt: &R, name: &str) -> Result<()> {
    print!(rt; "{name}:")?;
    let Some(file) = stored(rt, name, "csv")? else {
        println!(rt; " can't be read")?;
        return Ok(());
    };
    let file = file.as_slice();
    compare_text(rt, name, file, Text::Table, "table")?;
    compare_text(rt, name, file, Text::Reports(Days::AllClosed), "report")?;
    compare_text(rt, name, file, Text::Lists(Days::AllClosed), "worst")?;
    compare_text(rt, name, file, Text::Answers, "answers")?;
    println!(rt; " as stored")?;
    Ok(())
}

/// Its ending is written where it is the stored one. None is written where none is stored.
fn compare_text<R: AllocGlobal + Files + Print>(
    rt: &R,
    name: &str,
    file: &[u8],
    asked: Text,
    ending: &str,
) -> Result<()> {
    if let Some(stored) = stored(rt, name, ending)? {
        let mut made = Vec::new(rt.alloc());
        write_text_of(asked, file, &mut made)?;
        if made != stored {
            print!(rt; " ANOTHER")?;
        }
        print!(rt; " {ending}")?;
    }
    Ok(())
}

/// The stored bytes of a name and an ending, where they can be read.
fn stored<R: AllocGlobal + Files>(rt: &R, name: &str, ending: &str) -> Result<Option<Vec<u8>>> {
    Ok(fs::read(rt, format!(in rt.alloc(); "{name}.{ending}")?).ok())
}
