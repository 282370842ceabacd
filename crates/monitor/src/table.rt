//! The table of a call file: a line for each closed day.

ghost use Rattle.std.specs.Prelude.{◌≡◌, ◌+◌, ◌≤◌, ◌++◌, [], length};
ghost use Rattle.std.specs.List.{flat_map};
ghost use Rattle.monitor.specs.declared.table.TheConstants.{TABLE_ROOM};
ghost use Rattle.monitor.specs.Texts.{IsTextOf};
ghost use Rattle.monitor.specs.Table.{day_line, closed_days, counts_text, table_of, table_text};

use crate::refused::or_fault;
use crate::replay::Replayed;
use crate::row_text::push_row;
use book::book::Book;
use book::limits::DAYS;
use texts::page::{Page, push, push_line};

/// As many bytes as a table may take.
pub const TABLE_ROOM: usize = 8192;

/// The line of a day over all categories; a day that isn't closed has none.
fn push_day<const N: usize>(page: &mut Page<N>, book: &Book, day: u64)
    requires { length page.old.items + length (day_line book.now day) ≤ N }
    ensures { page.new.items ≡ page.old.items ++ day_line book.now day }
{
    if let Ok(row) = book.row(day, 0) {
        push_row(page, day, row);
    }
}

/// A line for each closed day.
#[tactic(auto, using(crate::proofs::Joined::numbers_more))]
fn push_days<const N: usize>(page: &mut Page<N>, book: &Book)
    requires { length page.old.items + length (flat_map (day_line book.now) (closed_days book.now)) ≤ N }
    ensures { page.new.items ≡ page.old.items ++ flat_map (day_line book.now) (closed_days book.now) }
{
    for day in 0..book.today.min(DAYS) {
        push_day(page, book, day);
    }
}

/// Accepted and refused counts.
#[tactic(auto, using(crate::proofs::Joined::two_parts))]
fn push_counts<const N: usize>(page: &mut Page<N>, accepted: u64, refused: u64)
    requires { length page.old.items + length (counts_text accepted refused) ≤ N }
    ensures { page.new.items ≡ page.old.items ++ counts_text accepted refused }
{
    push(page, b"accepted,refused\n");
    push_line(page, &[Some(accepted), Some(refused)]);
}

/// The table of a file that was replayed.
#[tactic(auto, using(crate::proofs::Joined::three_parts), unfolding(crate::specs::Table::table_of))]
fn push_table(page: &mut Page<TABLE_ROOM>, replayed: &Replayed)
    requires empty { page.old.items ≡ [] }
    requires short { length (table_of replayed.now) ≤ TABLE_ROOM }
    ensures { page.new.items ≡ table_of replayed.now }
{
    push(
        page,
        b"day,total_n,settled_n,sec_n,cash_n,total_v,settled_v,sec_v,cash_v,isd_v\n",
    );
    push_days(page, &replayed.book);
    push_counts(page, replayed.accepted, replayed.refused);
}

/// The table of a file.
pub fn write_table(file: &[u8], page: &mut Page<TABLE_ROOM>)
    ensures { IsTextOf table_text file.now page.new.items }
{
    let mut replayed = Replayed::fresh();
    if let Ok(()) = or_fault(page, replayed.replay(file)) {
        push_table(page, &replayed);
    }
}
