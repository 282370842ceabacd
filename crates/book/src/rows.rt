//! A row: the figures of a closed day and a category; and a summary: those of a participant. docs/RULES.md, 'A row'.
ghost use Rattle.std.specs.Prelude.{◌≡◌, ◌<◌, ◌≤◌};
ghost use Rattle.std.specs.List.{fold};
ghost use Rattle.book.specs.Limits.{day_limit, category_count};
ghost use Rattle.book.specs.Figures.{add_cell, none};
ghost use Rattle.book.specs.Rows.{row_of, figures_of, is_closed, row_answer, summary_answer};

use crate::book::Book;
use crate::calls::Refusal;
use crate::figures::{Cell, Figure, Summary, place};
use crate::limits::{CATEGORIES, CELLS, DAYS, LARGEST_CODE};

/// The figures of a day and a category, or sums of them. `total` is settled and fails together.
#[derive(Clone, Copy, Debug, Default, PartialEq, Eq)]
pub struct Row {
    pub total: Figure,
    pub settled: Figure,
    pub securities: Figure,
    pub cash: Figure,
    /// The value of the fails that are counted on their own ISD, in euro cents.
    pub isd_value: u64,
}

impl Row {
    /// The row of a cell.
    pub fn of(cell: Cell) -> Row
        ensures { result ≡ row_of cell }
    {
        let fails = cell.securities.saturating_add(cell.cash);
        Row {
            total: cell.settled.saturating_add(fails),
            settled: cell.settled,
            securities: cell.securities,
            cash: cell.cash,
            isd_value: cell.isd_value,
        }
    }
}

/// Cells added up.
fn sum(cells: &[Cell]) -> Cell
    ensures { result ≡ fold add_cell none cells.now }
{
    cells
        .iter()
        .fold(Cell::default(), |sum, cell| sum.saturating_add(*cell))
}

/// The figures of a day, of all nine categories where the category is 0.
fn figures_of(cells: &[Cell; CELLS], day: u8, category: u8) -> Cell
    requires day { day < day_limit }
    requires category { category ≤ category_count }
    ensures { result ≡ figures_of cells.now day category }
{
    if category == 0 {
        let first = place(CATEGORIES, day, 1);
        sum(&cells[first..first + CATEGORIES as usize])
    } else {
        cells[place(CATEGORIES, day, category)]
    }
}

impl Book {
    /// Whether a day is closed.
    pub fn is_closed(&self, day: u64) -> bool
        ensures { result ≡ is_closed day self.now }
    {
        day < self.today && day < DAYS
    }

    /// The row of a closed day and a category, 0 for all nine together. Number 2: a category over 9; 9: a day that isn't closed.
    pub fn row(&self, day: u64, category: u64) -> Result<Row, Refusal>
        ensures { result ≡ row_answer day category self.now }
    {
        if category > CATEGORIES {
            return Err(Refusal::OutOfRange);
        }
        if !self.is_closed(day) {
            return Err(Refusal::NotClosed);
        }
        Ok(Row::of(figures_of(&self.cells, day as u8, category as u8)))
    }

    /// The summary of a closed day and a participant. Number 2: a code outside 1 to 40; 9: a day that isn't closed.
    pub fn summary(&self, day: u64, code: u64) -> Result<Summary, Refusal>
        ensures { result ≡ summary_answer day code self.now }
    {
        if !(1..=LARGEST_CODE).contains(&code) {
            return Err(Refusal::OutOfRange);
        }
        if !self.is_closed(day) {
            return Err(Refusal::NotClosed);
        }
        Ok(self.summaries[place(LARGEST_CODE, day as u8, code as u8)])
    }
}
