//! The calls, each by value, as the customer asked for them, and in place.
ghost use Rattle.std.specs.Prelude.{◌≡◌, ◌<◌, ◌≤◌};
ghost use Rattle.book.specs.Limits.{open_limit, largest_id};

use book::book::{Book, Outcome};
use book::calls::{Answer, Call};
use book::limits::{CATEGORIES, DAYS, LARGEST_CODE, OPEN_LIMIT};
use book::pairs::Entry;

/// The last pair of the full book.
const LAST_ID: u64 = OPEN_LIMIT as u64;

/// So many turns have ids of their own: the last enters id 61,024.
const TURNS: u64 = 60_000;

/// A pair due on day 0; ids side by side differ in category, kind and deliverer.
fn entry_of(id: u64) -> Entry {
    Entry {
        id,
        kind: 1 + id % 4,
        category: 1 + id % CATEGORIES,
        isd: 0,
        side: 1 + id % 2,
        amount: 1_000_000 + id % 65_536,
        deliverer: 1 + id % LARGEST_CODE,
        receiver: 1 + id / LARGEST_CODE % LARGEST_CODE,
    }
}

/// 1,024 open pairs over the nine categories and the four kinds, all due on day 0.
fn full() -> Book {
    let mut book = Book::fresh();
    for id in 1..LAST_ID + 1 {
        let _ = book.apply(Call::Enter(entry_of(id)));
    }
    book
}

/// 1 where the call was accepted.
fn accepted(answer: Answer) -> u64
    ensures { result ≤ 1 }
{
    match answer {
        Ok(()) => 1,
        Err(_) => 0,
    }
}

/// So many times something called by value: how many were accepted.
fn by_value<F: Fn(Book, u64) -> Outcome>(mut book: Book, times: u64, call: F) -> u64
    requires { F.IsAlwaysCallable call }
    ensures { result ≤ times }
{
    let mut count = 0;
    for n in 0..times {
        let outcome = call(book, n);
        book = outcome.book;
        count += accepted(outcome.answer);
    }
    count
}

/// The same in place.
fn in_place<F: Fn(&mut Book, u64) -> Answer>(mut book: Book, times: u64, call: F) -> u64
    requires { F.IsAlwaysCallable call }
    ensures { result ≤ times }
{
    let mut count = 0;
    for n in 0..times {
        count += accepted(call(&mut book, n));
    }
    count
}

/// The securities fails of a day over all categories, in cents; 0 where the row is refused.
fn securities_on(book: &Book, day: u64) -> u64 {
    match book.row(day, 0) {
        Ok(row) => row.securities.value,
        Err(_) => 0,
    }
}

/// A close for each of the 64 days, by value: what failed on the last.
fn closed_by_value(mut book: Book) -> u64 {
    for _ in 0..DAYS {
        let outcome = book.close();
        book = outcome.book;
    }
    securities_on(&book, DAYS - 1)
}

/// The same in place.
fn closed_in_place(mut book: Book) -> u64 {
    for _ in 0..DAYS {
        let _ = book.apply(Call::Close);
    }
    securities_on(&book, DAYS - 1)
}

/// 64 closes of a book, so many times over: what failed on the last day.
fn closes_of<F: Fn(Book) -> u64>(times: u64, start: &Book, closed: F) -> u64
    requires { F.IsAlwaysCallable closed }
    ensures { times ≡ 0 → result ≡ 0 }
{
    let mut last = 0;
    for _ in 0..times {
        last = closed(start.copied());
    }
    last
}

/// 64 closes of the full book, one for each day, so many times over: what failed on the last day, in cents.
#[unsafe(no_mangle)]
pub extern "C" fn closes(times: u64) -> u64
    ensures { times ≡ 0 → result ≡ 0 }
{
    closes_of(times, &full(), closed_by_value)
}

/// The same in place.
#[unsafe(no_mangle)]
pub extern "C" fn closes_in_place(times: u64) -> u64
    ensures { times ≡ 0 → result ≡ 0 }
{
    closes_of(times, &full(), closed_in_place)
}

/// The same of a book with no open pair, in which nothing fails.
#[unsafe(no_mangle)]
pub extern "C" fn empty_closes(times: u64) -> u64
    ensures { times ≡ 0 → result ≡ 0 }
{
    closes_of(times, &Book::fresh(), closed_by_value)
}

/// The same in place.
#[unsafe(no_mangle)]
pub extern "C" fn empty_closes_in_place(times: u64) -> u64
    ensures { times ≡ 0 → result ≡ 0 }
{
    closes_of(times, &Book::fresh(), closed_in_place)
}

/// So many holds of the last pair, on and off: how many were accepted.
#[unsafe(no_mangle)]
pub extern "C" fn holds(times: u64) -> u64
    ensures { result ≤ times }
{
    by_value(full(), times, |book, n| book.hold(LAST_ID, 1, n % 2))
}

/// The same in place.
#[unsafe(no_mangle)]
pub extern "C" fn holds_in_place(times: u64) -> u64
    ensures { result ≤ times }
{
    in_place(full(), times, |book, n| {
        book.apply(Call::Hold {
            id: LAST_ID,
            side: 1,
            on: n % 2,
        })
    })
}

/// So many settles of one cent of the last pair: how many were accepted.
#[unsafe(no_mangle)]
pub extern "C" fn settles(times: u64) -> u64
    ensures { result ≤ times }
{
    by_value(full(), times, |book, _| book.settle(LAST_ID, 1))
}

/// The same in place.
#[unsafe(no_mangle)]
pub extern "C" fn settles_in_place(times: u64) -> u64
    ensures { result ≤ times }
{
    in_place(full(), times, |book, _| {
        book.apply(Call::Settle {
            id: LAST_ID,
            part: 1,
        })
    })
}

/// So many enters into the full book: how many were accepted, which is none.
#[unsafe(no_mangle)]
pub extern "C" fn enters(times: u64) -> u64
    ensures { result ≤ times }
{
    by_value(full(), times, |book, _| book.enter(entry_of(LAST_ID + 1)))
}

/// The same in place.
#[unsafe(no_mangle)]
pub extern "C" fn enters_in_place(times: u64) -> u64
    ensures { result ≤ times }
{
    in_place(full(), times, |book, _| {
        book.apply(Call::Enter(entry_of(LAST_ID + 1)))
    })
}

/// The id of a turn.
fn id_at(turn: u64) -> u64
    ensures low { open_limit ≤ result }
    ensures high { result < largest_id }
{
    LAST_ID + turn % TURNS
}

/// So many times the pair in the last place is cancelled and another entered there, by value: how many enters were accepted.
#[unsafe(no_mangle)]
pub extern "C" fn replaces(times: u64) -> u64
    ensures { result ≤ times }
{
    by_value(full(), times, |book, turn| {
        let id = id_at(turn);
        book.cancel(id).book.enter(entry_of(id + 1))
    })
}

/// The same in place.
#[unsafe(no_mangle)]
pub extern "C" fn replaces_in_place(times: u64) -> u64
    ensures { result ≤ times }
{
    in_place(full(), times, |book, turn| {
        let id = id_at(turn);
        let _ = book.apply(Call::Cancel { id });
        book.apply(Call::Enter(entry_of(id + 1)))
    })
}

/// So many times the pair in the first place is cancelled and another entered behind the last: how many enters were accepted.
#[unsafe(no_mangle)]
pub extern "C" fn replaces_first_in_place(times: u64) -> u64
    ensures { result ≤ times }
{
    in_place(full(), times, |book, turn| {
        let id = id_at(turn) + 1;
        let _ = book.apply(Call::Cancel { id: id - LAST_ID });
        book.apply(Call::Enter(entry_of(id)))
    })
}
