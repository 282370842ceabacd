//! What is written in place of a text: of a faulty file, and of a run of days that is refused.

ghost use Rattle.std.specs.Prelude.{◌≡◌, ◌+◌, ◌≤◌, ◌++◌, [], length, is_ok, is_some, IfSome, if◌then◌else◌};
ghost use Rattle.book.specs.declared.calls.Refusal.TheVariants.{NotClosed};
ghost use Rattle.reports.specs.Reports.{is_run};
ghost use Rattle.monitor.specs.Days.{first_and_last};
ghost use Rattle.monitor.specs.Texts.{fault, refused_text};

use crate::days::Days;
use book::book::Book;
use book::calls::Refusal;
use reports::run::Run;
use texts::page::{Page, push, push_line};

/// What is written of a faulty file.
const FAULT: &[u8] = b"fault\n10\n";

/// What is given of a file, and an empty page; where the file is faulty the page has `fault` and 10 on two lines.
pub(crate) fn or_fault<T: Copy, const N: usize>(
    page: &mut Page<N>,
    given: Result<T, Refusal>,
) -> Result<T, Refusal>
    requires { length fault ≤ N }
    ensures given { result ≡ given }
    ensures page { page.new.items ≡ (if is_ok given then [] else fault) }
{
    page.clear();
    if given.is_err() {
        push(page, FAULT);
    }
    given
}

/// `refused` and the number of a refusal on two lines.
#[tactic(auto, using(crate::proofs::Joined::two_parts), unfolding(crate::specs::Texts::refused_text))]
fn push_refused<const N: usize>(page: &mut Page<N>, refusal: Refusal)
    requires { length page.old.items + length (refused_text refusal) ≤ N }
    ensures { page.new.items ≡ page.old.items ++ refused_text refusal }
{
    push(page, b"refused\n");
    push_line(page, &[Some(refusal.number())]);
}

/// On an empty page the names line, and the run of days that is asked for. Where that is refused, the refusal stands behind
/// the names line.
pub(crate) fn run_or_refused<const N: usize>(
    page: &mut Page<N>,
    names: &[u8],
    book: &Book,
    days: Days,
) -> Option<Run>
    requires empty { page.old.items ≡ [] }
    requires short { length names.now + length (refused_text NotClosed) ≤ N }
    ensures given { is_some result ≡ (let asked = first_and_last book.now.today days in is_run asked.0 asked.1 book.now) }
    ensures days { IfSome result (λ run. let asked = first_and_last book.now.today days in (run.first ≡ asked.0) × (run.last ≡ asked.1)) }
    ensures text { page.new.items ≡ names.now ++ (if is_some result then [] else refused_text NotClosed) }
{
    push(page, names);
    let (first, last) = days.first_and_last(book.today);
    match Run::of(book, first, last) {
        Ok(run) => Some(run),
        Err(refusal) => {
            push_refused(page, refusal);
            None
        }
    }
}
