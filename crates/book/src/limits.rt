//! The limits of a book.

/// Business days, 0 to 63. No call is accepted once all are closed.
pub const DAYS: u64 = 64;

/// Categories of a pair, 1 to 9.
pub const CATEGORIES: u64 = 9;

/// Cells: one for each day and category.
pub const CELLS: usize = (DAYS * CATEGORIES) as usize;

/// Pairs open at one time.
pub const OPEN_LIMIT: usize = 1024;

/// Ids are 1 to this.
pub const LARGEST_ID: u64 = 65_535;

/// Amounts are 1 to this: euro cents, of one SI.
pub const LARGEST_AMOUNT: u64 = 10_000_000_000;

/// Codes of participants are 1 to this.
pub const LARGEST_CODE: u64 = 40;

/// Summaries: one for each day and participant.
pub const SUMMARIES: usize = (DAYS * LARGEST_CODE) as usize;
