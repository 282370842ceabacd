//! A row as text: into a lent buffer, and the count of bytes back, as docs/RULES.md, 'A call file', asks for it.

ghost use Rattle.std.specs.Prelude.{◌≡◌, ◌+◌, ◌≤◌, ◌++◌, length};
ghost use Rattle.book.specs.Rows.{row_answer};
ghost use Rattle.monitor.specs.declared.row_text.TheConstants.{LINE_ROOM};
ghost use Rattle.monitor.specs.RowText.{row_fields, row_line, row_text, LinesAreShort, WholeLines};

use book::book::Book;
use book::calls::Refusal;
use book::rows::Row;
use texts::page::{Page, push_line, write_to};

/// A shorter buffer is refused.
pub const SHORTEST_BUFFER: usize = 128;

/// The columns of a row.
pub(crate) const ROW_COLUMNS: usize = 10;

/// As many bytes as the line of a row may take, whatever its numbers: 20 digits each, and a byte behind.
const LINE_ROOM: usize = 21 * ROW_COLUMNS;

/// The columns of the table.
#[tactic(auto, unfolding(crate::specs::RowText::row_fields))]
pub(crate) fn row_fields(day: u64, row: Row) -> [Option<u64>; ROW_COLUMNS]
    ensures fields { result ≡ row_fields day row }
    ensures short { length (row_line day row) ≤ LINE_ROOM }
{
    [
        Some(day),
        Some(row.total.number),
        Some(row.settled.number),
        Some(row.securities.number),
        Some(row.cash.number),
        Some(row.total.value),
        Some(row.settled.value),
        Some(row.securities.value),
        Some(row.cash.value),
        Some(row.isd_value),
    ]
}

/// The line of a row.
pub(crate) fn push_row<const N: usize>(page: &mut Page<N>, day: u64, row: Row)
    requires { length page.old.items + length (row_line day row) ≤ N }
    ensures { page.new.items ≡ page.old.items ++ row_line day row }
{
    push_line(page, &row_fields(day, row));
}

/// The row of a day and a category, 0 for all nine together, as a line of the table with its LF at the buffer's start, and how
/// many bytes that is. Refused by 2, 9, and then by 11: a buffer under 128 bytes, whatever the line's length.
pub fn row_text(book: &Book, day: u64, category: u64, buffer: &mut [u8]) -> Result<usize, Refusal>
    ensures answer { result ≡ (row_text day buffer.old (row_answer day category book.now)).0 }
    ensures buffer { buffer.new ≡ (row_text day buffer.old (row_answer day category book.now)).1 }
{
    let row = book.row(day, category)?;
    if buffer.len() < SHORTEST_BUFFER {
        return Err(Refusal::ShortBuffer);
    }
    let mut page = Page::<LINE_ROOM>::new();
    push_line(&mut page, &row_fields(day, row));
    Ok(write_to(&page, buffer))
}

/// After every list of calls a row's line has at most 116 bytes, so that a buffer that isn't refused holds it whole.
#[tactic(auto, using(crate::proofs::Lengths::lines_are_short, crate::proofs::Lengths::whole_lines))]
pub fn rows_have_whole_lines()
    ensures short { LinesAreShort }
    ensures whole { WholeLines }
{}
