//! The daily balance of the rows that are given.
#![tactic(auto)]

ghost use Rattle.std.specs.Prelude.{◌≡◌};
ghost use Rattle.history.specs.History.{book_of, history_of};
ghost use Rattle.balance.specs.DailyBalance.{ClosedDaysAreGiven, BalancesOnClosedDays, DailyBalance, OneOutcome, DailyBalanceOfCode, DailyBalanceOfFunction};

use book::book::Book;
use book::calls::Call;

/// After every list of calls a row is given for the closed days and no other, and each of these rows balances. The contract of a
/// call leaves one outcome; and the rows of whatever meets the contracts of the calls and of the row balance too.
#[tactic(auto, using(crate::proofs::Rows::closed_given, crate::proofs::Rows::rows_balance, crate::proofs::Rows::one_outcome, crate::proofs::Rows::of_code, crate::proofs::Rows::of_function))]
pub fn closed_days_balance()
    ensures given { ClosedDaysAreGiven }
    ensures balance { DailyBalance }
    ensures one_outcome { OneOutcome }
    ensures code { DailyBalanceOfCode }
    ensures function { DailyBalanceOfFunction }
{}

/// The book after a list of calls from a fresh one: its rows balance against these calls and their answers.
#[tactic(auto, using(crate::proofs::Rows::rows_balance))]
pub fn book_of_calls(calls: &[Call]) -> Book
    ensures book { result ≡ book_of calls.now }
    ensures balance { BalancesOnClosedDays (history_of calls.now) result }
{
    let mut book = Book::fresh();
    book.apply_all(calls);
    book
}
