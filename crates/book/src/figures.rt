//! The figures of a day: by category, and by participant.
ghost use Rattle.std.specs.Prelude.{◌≡◌, ◌≤◌};
ghost use Rattle.book.specs.Limits.{largest_code};
ghost use Rattle.book.specs.Figures.{in_measure, add_figure, add_cell, settled_part, fail, add_summary, summary_of, place, post, post_summary, gains_at};

use crate::limits::{CATEGORIES, LARGEST_CODE};
use crate::sides::Sides;

/// So many SIs, and their value in euro cents.
#[derive(Clone, Copy, Debug, Default, PartialEq, Eq)]
pub struct Figure {
    pub number: u64,
    pub value: u64,
}

/// What is added up or compared of figures.
#[derive(Clone, Copy, Debug, PartialEq, Eq)]
pub enum Measure {
    /// So many SIs.
    Number,
    /// Euro cents.
    Value,
}

/// The figures of a day and category.
#[derive(Clone, Copy, Debug, Default, PartialEq, Eq)]
pub struct Cell {
    pub settled: Figure,
    pub securities: Figure,
    pub cash: Figure,
    /// The value of the fails that are counted on their own ISD.
    pub isd_value: u64,
}

/// The figures of a day and participant.
#[derive(Clone, Copy, Debug, Default, PartialEq, Eq)]
pub struct Summary {
    pub total: Figure,
    pub fails: Figure,
}

/// What a pair adds to the figures of a day.
#[derive(Clone, Copy, Debug, PartialEq, Eq)]
pub struct Posting {
    pub day: u8,
    pub category: u8,
    pub deliverer: u8,
    pub receiver: u8,
    pub figures: Cell,
}

impl Figure {
    /// In a measure.
    pub fn in_measure(self, measure: Measure) -> u64
        ensures { result ≡ in_measure measure self }
    {
        match measure {
            Measure::Number => self.number,
            Measure::Value => self.value,
        }
    }

    /// The sum of two figures, as it is stored. Cells and summaries have one too, field by field: no derive writes a sum.
    pub fn saturating_add(self, other: Figure) -> Figure
        ensures { result ≡ add_figure self other }
    {
        Figure {
            number: self.number.saturating_add(other.number),
            value: self.value.saturating_add(other.value),
        }
    }
}

impl Cell {
    /// The sum of two cells, figure by figure.
    pub fn saturating_add(self, other: Cell) -> Cell
        ensures { result ≡ add_cell self other }
    {
        Cell {
            settled: self.settled.saturating_add(other.settled),
            securities: self.securities.saturating_add(other.securities),
            cash: self.cash.saturating_add(other.cash),
            isd_value: self.isd_value.saturating_add(other.isd_value),
        }
    }

    /// A settled part.
    pub(crate) fn settled_part(part: u64, first: bool) -> Cell
        ensures { result ≡ settled_part part first }
    {
        let settled = Figure {
            number: if first { 2 } else { 0 },
            value: part.saturating_mul(2),
        };
        Cell {
            settled,
            ..Cell::default()
        }
    }

    /// A fail of two instructions worth `value` each.
    pub(crate) fn fail(sides: Sides, value: u64, on_isd: bool) -> Cell
        ensures { result ≡ fail sides value on_isd }
    {
        let both = value.saturating_mul(2);
        let one = Figure { number: 1, value };
        let two = Figure {
            number: 2,
            value: both,
        };
        let (securities, cash) = match sides {
            Sides::Securities => (two, Figure::default()),
            Sides::Cash => (Figure::default(), two),
            Sides::OneEach => (one, one),
        };
        Cell {
            settled: Figure::default(),
            securities,
            cash,
            isd_value: if on_isd { both } else { 0 },
        }
    }
}

impl Summary {
    /// The sum of two summaries.
    pub fn saturating_add(self, other: Summary) -> Summary
        ensures { result ≡ add_summary self other }
    {
        Summary {
            total: self.total.saturating_add(other.total),
            fails: self.fails.saturating_add(other.fails),
        }
    }

    /// What a participant's summary gains where a cell gains these.
    pub fn of(figures: Cell) -> Summary
        ensures { result ≡ summary_of figures }
    {
        let fails = figures.securities.saturating_add(figures.cash);
        Summary {
            total: figures.settled.saturating_add(fails),
            fails,
        }
    }
}

/// Where number `n` of a day lies, counted from 1, where so many lie to a day.
pub(crate) fn place(to_a_day: u64, day: u8, n: u8) -> usize
    requires { to_a_day ≤ largest_code }
    ensures { result ≡ place to_a_day day n }
{
    usize::from(day) * to_a_day as usize + usize::from(n.saturating_sub(1))
}

/// The cell of the day and category gains the figures.
pub(crate) fn post(cells: &mut [Cell], posting: Posting)
    ensures { cells.new ≡ post cells.old posting }
{
    let place = place(CATEGORIES, posting.day, posting.category);
    if place < cells.len() {
        cells[place] = cells[place].saturating_add(posting.figures);
    }
}

/// The summary of the day and participant gains the figures.
fn gain(summaries: &mut [Summary], day: u8, code: u8, gained: Summary)
    ensures { summaries.new ≡ gains_at day code gained summaries.old }
{
    let place = place(LARGEST_CODE, day, code);
    if place < summaries.len() {
        summaries[place] = summaries[place].saturating_add(gained);
    }
}

/// The summaries of both participants gain the figures, once where they are one.
pub(crate) fn post_summary(summaries: &mut [Summary], posting: Posting)
    ensures { summaries.new ≡ post_summary summaries.old posting }
{
    let gained = Summary::of(posting.figures);
    gain(summaries, posting.day, posting.deliverer, gained);
    if posting.receiver != posting.deliverer {
        gain(summaries, posting.day, posting.receiver, gained);
    }
}
