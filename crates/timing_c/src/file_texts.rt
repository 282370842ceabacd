//! The table and the lists of a file.
ghost use Rattle.std.specs.Prelude.{◌≡◌, ℕ, ◌≤◌, List, ◌++◌, drop, length};
ghost use Rattle.monitor.specs.declared.days.Days.{Days};
ghost use Rattle.monitor.specs.Texts.{IsTextOf};
ghost use Rattle.monitor.specs.Table.{table_text};
ghost use Rattle.monitor.specs.ListTable.{lists_text};
ghost use Rattle.monitor.specs.Theorems.{table_room, list_room};

use monitor::days::Days;
use monitor::list_table::{LIST_ROOM, write_lists};
use monitor::table::{TABLE_ROOM, write_table};
use texts::page::{Page, write_to};

/// The bytes of a page at a buffer's start: so many; the bytes behind them stay.
#[tactic(auto, using(std::proofs::lemmas::List::take_all))]
fn put_page<const N: usize>(page: &Page<N>, buffer: &mut [u8; N]) -> usize
    ensures count { result ≡ length page.now.items }
    ensures buffer { buffer.new ≡ page.now.items ++ drop (length page.now.items) buffer.old }
{
    write_to(page, buffer)
}

/// As many bytes as the larger of the two may take: the caller's buffer has no fewer.
#[unsafe(no_mangle)]
pub extern "C" fn largest_room() -> usize
    ensures table { table_room ≤ result }
    ensures lists { list_room ≤ result }
{
    TABLE_ROOM.max(LIST_ROOM)
}

/// The table of a file, at the buffer's start; the count of its bytes comes back.
#[unsafe(no_mangle)]
pub extern "C" fn table_of(text: &[u8], buffer: &mut [u8; TABLE_ROOM]) -> usize
    ensures { (bytes : List ℕ) × IsTextOf table_text text.now bytes × (result ≡ length bytes) × (buffer.new ≡ bytes ++ drop (length bytes) buffer.old) }
{
    let mut page = Page::new();
    write_table(text, &mut page);
    put_page(&page, buffer)
}

/// The lists of a file over all closed days, at the buffer's start; the count of their bytes comes back.
#[unsafe(no_mangle)]
pub extern "C" fn lists_of(text: &[u8], buffer: &mut [u8; LIST_ROOM]) -> usize
    ensures { (bytes : List ℕ) × IsTextOf (lists_text Days.AllClosed) text.now bytes × (result ≡ length bytes) × (buffer.new ≡ bytes ++ drop (length bytes) buffer.old) }
{
    let mut page = Page::new();
    write_lists(text, Days::AllClosed, &mut page);
    put_page(&page, buffer)
}
