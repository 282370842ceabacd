//! The text of a file, whichever is asked for.

ghost use Rattle.std.specs.Prelude.{OnOk};
ghost use Rattle.console.specs.Texts.{WritesText};

use monitor::answers::{ANSWER_ROOM, write_answers};
use monitor::days::Days;
use monitor::list_table::{LIST_ROOM, write_lists};
use monitor::report_table::{REPORT_ROOM, write_reports};
use monitor::table::{TABLE_ROOM, write_table};
use std::io;
use std::io::Write;
use texts::page::Page;

/// Which text is written of a file.
#[derive(Clone, Copy, Debug, PartialEq, Eq)]
pub enum Text {
    Table,
    Answers,
    Reports(Days),
    Lists(Days),
}

/// Writes the text of a file, and nothing else.
pub fn write_text_of<W: Write>(asked: Text, file: &[u8], writer: &mut W) -> io::Result<()>
    ensures { OnOk result (WritesText asked file.now (W.contents writer.old) (W.contents writer.new)) }
{
    match asked {
        Text::Table => write_table_of(file, writer),
        Text::Answers => write_answers_of(file, writer),
        Text::Reports(days) => write_reports_of(days, file, writer),
        Text::Lists(days) => write_lists_of(days, file, writer),
    }
}

// The four below differ in the page's size. One function would take a closure whose bound names that size, a const parameter:
// tried, and the proof did not close, since the check does not cover such a bound.

fn write_table_of<W: Write>(file: &[u8], writer: &mut W) -> io::Result<()>
    ensures { OnOk result (WritesText Text.Table file.now (W.contents writer.old) (W.contents writer.new)) }
{
    let mut page = Page::<TABLE_ROOM>::new();
    write_table(file, &mut page);
    writer.write_all(&page)
}

fn write_answers_of<W: Write>(file: &[u8], writer: &mut W) -> io::Result<()>
    ensures { OnOk result (WritesText Text.Answers file.now (W.contents writer.old) (W.contents writer.new)) }
{
    let mut page = Page::<ANSWER_ROOM>::new();
    write_answers(file, &mut page);
    writer.write_all(&page)
}

fn write_reports_of<W: Write>(days: Days, file: &[u8], writer: &mut W) -> io::Result<()>
    ensures { OnOk result (WritesText (Text.Reports days) file.now (W.contents writer.old) (W.contents writer.new)) }
{
    let mut page = Page::<REPORT_ROOM>::new();
    write_reports(file, days, &mut page);
    writer.write_all(&page)
}

fn write_lists_of<W: Write>(days: Days, file: &[u8], writer: &mut W) -> io::Result<()>
    ensures { OnOk result (WritesText (Text.Lists days) file.now (W.contents writer.old) (W.contents writer.new)) }
{
    let mut page = Page::<LIST_ROOM>::new();
    write_lists(file, days, &mut page);
    writer.write_all(&page)
}
