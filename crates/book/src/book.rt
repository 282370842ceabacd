//! The book, and the calls: docs/RULES.md, 'The calls'.
ghost use Rattle.std.specs.Prelude.{◌≡◌, ◌<◌, [], ◌∷◌, None, Ok, Err, IfOk, IfErr, MatchResult};
ghost use Rattle.std.specs.List.{fold, position};
ghost use Rattle.arrayvec.specs.ArrayVec.{array_vec_len};
ghost use Rattle.book.specs.Limits.{day_limit, open_limit};
ghost use Rattle.book.specs.Pairs.{entered, while_open};
ghost use Rattle.book.specs.Figures.{post, post_summary};
ghost use Rattle.book.specs.Answers.{has_id, pair_of, answer_to};
ghost use Rattle.book.specs.Postings.{fails_of, late_fails};
ghost use Rattle.book.specs.Book.{book_after, accepted_in, book_after_all, fresh_book};
ghost use Rattle.book.specs.Places.{IsAt, at_place};

use crate::calls::{Answer, Call, Refusal};
use crate::figures::{Cell, Summary, post, post_summary};
use crate::limits::{CELLS, DAYS, OPEN_LIMIT, SUMMARIES};
use crate::pairs::{Entry, Lack, Pair, Side, switch_of};
use arrayvec::ArrayVec;

/// A book is a plain value without heap: each call on any book is defined, and none runs out of memory. Nothing is asked of its
/// fields: sums stop at the largest number, and a place or an id is looked for. The customer asked for a flat array of the
/// cells beside the pairs.
#[derive(Clone, Debug, PartialEq, Eq, Drop)]
pub struct Book {
    /// The open pairs, in the order of entering.
    pub pairs: ArrayVec<Pair, OPEN_LIMIT>,
    /// By day and category, nine to a day.
    pub cells: [Cell; CELLS],
    /// By day and participant, forty to a day.
    pub summaries: [Summary; SUMMARIES],
    /// The day on which a call falls, and 64 once all are closed.
    pub today: u64,
    /// The highest id accepted, 0 where none was.
    pub last_id: u64,
}

/// What a call by value hands back: the book, the same where the call is refused, and the answer.
#[derive(Clone, Debug, PartialEq, Eq, Drop)]
pub struct Outcome {
    pub book: Book,
    pub answer: Answer,
}

/// Where the open pair of that id stands.
fn place_of(pairs: &[Pair], id: u64) -> Option<usize>
    ensures { result ≡ position (has_id id) pairs.now }
{
    pairs.iter().position(|pair| u64::from(pair.id) == id)
}

/// Where the open pair of that id stands, and the pair; 5 where none is open. Inlined, its counter would live in memory, five
/// times as slow.
#[tactic(auto, using(crate::proofs::Places::none_from_position))]
#[inline(never)]
fn find(pairs: &[Pair], id: u64) -> Result<(usize, Pair), Refusal>
    ensures { MatchResult result (λ found. IsAt id pairs.now found.0 found.1)
        (λ refusal. (pair_of id pairs.now ≡ None) × (refusal ≡ Refusal.NotOpen)) }
{
    match place_of(pairs, id) {
        Some(place) => Ok((place, pairs[place])),
        None => Err(Refusal::NotOpen),
    }
}

/// The pair at a place becomes another one.
#[tactic(auto, using(crate::proofs::Places::written_at))]
fn put(pairs: &mut ArrayVec<Pair, OPEN_LIMIT>, place: usize, pair: Pair)
    requires { place < array_vec_len pairs.old }
    ensures { pairs.new.items ≡ at_place pairs.old.items place (pair ∷ []) }
{
    pairs[place] = pair;
}

/// The pair at a place goes, and those behind it move up.
fn take_out(pairs: &mut ArrayVec<Pair, OPEN_LIMIT>, place: usize)
    requires { place < array_vec_len pairs.old }
    ensures { pairs.new.items ≡ at_place pairs.old.items place [] }
{
    pairs.as_mut_slice().copy_within(place + 1.., place);
    pairs.pop();
}

/// The pair at a place becomes another one, and goes once nothing of that is open.
fn put_while_open(pairs: &mut ArrayVec<Pair, OPEN_LIMIT>, place: usize, pair: Pair)
    requires { place < array_vec_len pairs.old }
    ensures { pairs.new.items ≡ at_place pairs.old.items place (while_open pair) }
{
    if pair.rest == 0 {
        take_out(pairs, place);
    } else {
        put(pairs, place, pair);
    }
}

/// Each failing pair gives its fail to the figures of its category and its participants. Cells, summaries and pairs are lent side
/// by side, as a method on the book could not lend them.
fn post_fails(cells: &mut [Cell], summaries: &mut [Summary], pairs: &[Pair], today: u64)
    requires { today < day_limit }
    ensures cells { cells.new ≡ fold post cells.old (fails_of today pairs.now) }
    ensures summaries { summaries.new ≡ fold post_summary summaries.old (fails_of today pairs.now) }
{
    for pair in pairs {
        if pair.is_failing(today) {
            let fail = pair.fail(today);
            post(cells, fail);
            post_summary(summaries, fail);
        }
    }
}

/// Each day from ISD to yesterday gains the fail of a late pair.
#[tactic(auto, using(crate::proofs::Places::next_day))]
fn post_late(cells: &mut [Cell], summaries: &mut [Summary], pair: Pair, today: u64)
    requires { today < day_limit }
    ensures cells { cells.new ≡ fold post cells.old (late_fails today pair) }
    ensures summaries { summaries.new ≡ fold post_summary summaries.old (late_fails today pair) }
{
    for day in u64::from(pair.isd)..today {
        let fail = pair.late_fail(day);
        post(cells, fail);
        post_summary(summaries, fail);
    }
}

impl Book {
    /// A book that holds no pair, on day 0.
    pub fn fresh() -> Book
        ensures { result ≡ fresh_book }
    {
        Book {
            pairs: ArrayVec::new(),
            cells: [Cell::default(); CELLS],
            summaries: [Summary::default(); SUMMARIES],
            today: 0,
            last_id: 0,
        }
    }

    /// Another book with the same pairs and figures. `clone` may fail, as it does for a type that has a heap.
    pub fn copied(&self) -> Book
        ensures { result ≡ self.now }
    {
        let mut pairs = ArrayVec::new();
        let _ = pairs.try_extend_from_slice(&self.pairs);
        Book {
            pairs,
            cells: self.cells,
            summaries: self.summaries,
            today: self.today,
            last_id: self.last_id,
        }
    }

    /// Any call, made in place. A refused call leaves the book as it was.
    pub fn apply(&mut self, call: Call) -> Answer
        ensures answer { result ≡ answer_to call self.old }
        ensures book { self.new ≡ book_after call self.old }
    {
        if self.today >= DAYS {
            return Err(Refusal::Finished);
        }
        match call {
            Call::Enter(entry) => self.on_enter(entry),
            Call::Hold { id, side, on } => self.on_hold(id, side, on),
            Call::Lack { id, lack } => self.on_lack(id, lack),
            Call::Settle { id, part } => self.on_settle(id, part),
            Call::Cancel { id } => self.on_cancel(id),
            Call::Close => self.on_close(),
        }
    }

    /// The calls of a list, one after another, and how many of them were accepted.
    pub fn apply_all(&mut self, calls: &[Call]) -> usize
        ensures accepted { result ≡ accepted_in calls.now self.old }
        ensures book { self.new ≡ book_after_all calls.now self.old }
    {
        let mut accepted = 0;
        for call in calls {
            if self.apply(*call).is_ok() {
                accepted += 1;
            }
        }
        accepted
    }

    /// Enter, by value. The customer asked for calls that take the book and hand it back; each costs two copies of 147 KB.
    #[inline(always)]
    pub fn enter(mut self, entry: Entry) -> Outcome
        ensures answer { result.answer ≡ answer_to (Call.Enter entry) self }
        ensures book { result.book ≡ book_after (Call.Enter entry) self }
    {
        let answer = self.apply(Call::Enter(entry));
        Outcome { book: self, answer }
    }

    /// Hold, by value.
    #[inline(always)]
    pub fn hold(mut self, id: u64, side: u64, on: u64) -> Outcome
        ensures answer { result.answer ≡ answer_to (Call.Hold id side on) self }
        ensures book { result.book ≡ book_after (Call.Hold id side on) self }
    {
        let answer = self.apply(Call::Hold { id, side, on });
        Outcome { book: self, answer }
    }

    /// Lack, by value.
    #[inline(always)]
    pub fn lack(mut self, id: u64, lack: u64) -> Outcome
        ensures answer { result.answer ≡ answer_to (Call.Lack id lack) self }
        ensures book { result.book ≡ book_after (Call.Lack id lack) self }
    {
        let answer = self.apply(Call::Lack { id, lack });
        Outcome { book: self, answer }
    }

    /// Settle, by value.
    #[inline(always)]
    pub fn settle(mut self, id: u64, part: u64) -> Outcome
        ensures answer { result.answer ≡ answer_to (Call.Settle id part) self }
        ensures book { result.book ≡ book_after (Call.Settle id part) self }
    {
        let answer = self.apply(Call::Settle { id, part });
        Outcome { book: self, answer }
    }

    /// Cancel, by value.
    #[inline(always)]
    pub fn cancel(mut self, id: u64) -> Outcome
        ensures answer { result.answer ≡ answer_to (Call.Cancel id) self }
        ensures book { result.book ≡ book_after (Call.Cancel id) self }
    {
        let answer = self.apply(Call::Cancel { id });
        Outcome { book: self, answer }
    }

    /// Close, by value.
    #[inline(always)]
    pub fn close(mut self) -> Outcome
        ensures answer { result.answer ≡ answer_to Call.Close self }
        ensures book { result.book ≡ book_after Call.Close self }
    {
        let answer = self.apply(Call::Close);
        Outcome { book: self, answer }
    }

    /// The pair that an enter brings in, or why it is refused.
    fn entered(&self, entry: &Entry) -> Result<Pair, Refusal>
        requires { self.now.today < day_limit }
        ensures pair { IfOk result (λ pair. pair ≡ entered entry.now) }
        ensures accepted { IfOk result (λ _. answer_to (Call.Enter entry.now) self.now ≡ Ok tt) }
        ensures room { IfOk result (λ _. array_vec_len self.now.pairs < open_limit) }
        ensures refused { IfErr result (λ refusal. answer_to (Call.Enter entry.now) self.now ≡ Err refusal) }
    {
        let pair = entry.pair()?;
        if entry.id <= self.last_id {
            return Err(Refusal::IdSpent);
        }
        if self.pairs.is_full() {
            return Err(Refusal::BookFull);
        }
        Ok(pair)
    }

    /// A pair is entered, and where it is late its past days gain its fails.
    fn on_enter(&mut self, entry: Entry) -> Answer
        requires { self.old.today < day_limit }
        ensures answer { result ≡ answer_to (Call.Enter entry) self.old }
        ensures book { self.new ≡ book_after (Call.Enter entry) self.old }
    {
        let pair = self.entered(&entry)?;
        self.pairs.push(pair);
        self.last_id = entry.id;
        post_late(&mut self.cells, &mut self.summaries, pair, self.today);
        Ok(())
    }

    /// The hold of a side goes on or off.
    fn on_hold(&mut self, id: u64, side: u64, on: u64) -> Answer
        requires { self.old.today < day_limit }
        ensures answer { result ≡ answer_to (Call.Hold id side on) self.old }
        ensures book { self.new ≡ book_after (Call.Hold id side on) self.old }
    {
        let side = Side::try_from(side)?;
        let on = switch_of(on)?;
        let (place, pair) = find(&self.pairs, id)?;
        put(&mut self.pairs, place, pair.with_hold(side, on));
        Ok(())
    }

    /// What a pair lacks is said.
    fn on_lack(&mut self, id: u64, lack: u64) -> Answer
        requires { self.old.today < day_limit }
        ensures answer { result ≡ answer_to (Call.Lack id lack) self.old }
        ensures book { self.new ≡ book_after (Call.Lack id lack) self.old }
    {
        let lack = Lack::try_from(lack)?;
        let (place, pair) = find(&self.pairs, id)?;
        put(&mut self.pairs, place, pair.with_lack(lack));
        Ok(())
    }

    /// A part of the rest settles; the pair goes once nothing of it is open.
    fn on_settle(&mut self, id: u64, part: u64) -> Answer
        requires { self.old.today < day_limit }
        ensures answer { result ≡ answer_to (Call.Settle id part) self.old }
        ensures book { self.new ≡ book_after (Call.Settle id part) self.old }
    {
        let (place, pair) = find(&self.pairs, id)?;
        pair.settle_answer(self.today, part)?;
        let settled = pair.part(self.today, part);
        post(&mut self.cells, settled);
        post_summary(&mut self.summaries, settled);
        put_while_open(&mut self.pairs, place, pair.with_part(self.today, part));
        Ok(())
    }

    /// The pair goes.
    fn on_cancel(&mut self, id: u64) -> Answer
        requires { self.old.today < day_limit }
        ensures answer { result ≡ answer_to (Call.Cancel id) self.old }
        ensures book { self.new ≡ book_after (Call.Cancel id) self.old }
    {
        let (place, _) = find(&self.pairs, id)?;
        take_out(&mut self.pairs, place);
        Ok(())
    }

    /// What is due and open fails, and today rises by one.
    fn on_close(&mut self) -> Answer
        requires { self.old.today < day_limit }
        ensures answer { result ≡ answer_to Call.Close self.old }
        ensures book { self.new ≡ book_after Call.Close self.old }
    {
        post_fails(
            &mut self.cells,
            &mut self.summaries,
            &self.pairs,
            self.today,
        );
        self.today += 1;
        Ok(())
    }
}
