// Loading a portfolio into a book.
ghost use Rattle.std.specs.Prelude.{◌≡◌, ◌+◌, ◌^◌, ◌<◌, List, length, IfOk};
ghost use Rattle.std.specs.Iterator.{IsFinite, size};
ghost use Rattle.std.specs.Result.{result_err};
ghost use Rattle.plain.specs.EveryRun.{HoldsWhole};
ghost use Rattle.plain.specs.Refused.{declined};
ghost use Rattle.plain.specs.Runs.{after, ReachedByARun};
ghost use Rattle.plain.specs.Steps.{Step};
ghost use Rattle.book.specs.View.{plain};
ghost use Rattle.portfolio.specs.Seen.{plain_portfolio};
ghost use Rattle.loading.specs.Entering.{GivesCalls};
ghost use Rattle.loading.specs.Trying.{tried, entries_of, first_entry_line, outcome, TriedInOrder};

use book::book::Book;
use entries::investee::{InvesteeEntry, PostEntry};
use entries::stop::Stop;
use faults::Fault;
use portfolio::file::Portfolio;
use rules::rule::Rule;

// Line 1 has no entry.
const FIRST_ENTRY_LINE: usize = 2;

// What is entered into a book by one call.
trait Entry {
    ghost call: { Self → Step };

    fn enter<R: Rule>(&self, book: &mut Book<'_, R>) -> Result<(), Fault>
        ensures declined { result_err result ≡ declined (R.tables book.old.rule.now) (plain book.old) (call self.now) }
        ensures book { plain book.new ≡ after (R.tables book.old.rule.now) (plain book.old) (call self.now) }
        ensures rule { book.new.rule ≡ book.old.rule };
}

impl Entry for InvesteeEntry {
    ghost use Rattle.loading.specs.Entering.{opening_held};

    ghost call = { opening_held };

    fn enter<R: Rule>(&self, book: &mut Book<'_, R>) -> Result<(), Fault> {
        book.open(self.fields, &self.source)
    }
}

impl Entry for PostEntry {
    ghost use Rattle.loading.specs.Trying.{posting};

    ghost call = { posting };

    fn enter<R: Rule>(&self, book: &mut Book<'_, R>) -> Result<(), Fault> {
        book.post(self.branch, self.id, self.month, self.balance)
    }
}

// Enters entries, the first of which stands in this line, to the last or to the first that is declined. The line after
// them is given.
fn enter_all<R: Rule, I: Iterator>(
    book: &mut Book<'_, R>,
    entries: I,
    first: usize,
) -> Result<usize, Stop>
where
    I::Item: Entry + Drop,
    requires can { I.can_next entries }
    requires ends { IsFinite (I.remaining entries) }
    requires lines { first + size (I.remaining entries) < 2 ^ 32 }
    ensures tried { (left : I → List Step) → GivesCalls I.next_gives I.Item.call left → outcome (plain book.new) (result_err result) ≡ tried (R.tables book.old.rule.now) first (plain book.old) (left entries) }
    ensures next { (left : I → List Step) → GivesCalls I.next_gives I.Item.call left → IfOk result (λ line. line ≡ first + length (left entries)) }
    ensures rule { book.new.rule ≡ book.old.rule }
{
    // Counted, and no `zip` with a range: the line after the last is given.
    let mut line = first;
    for entry in entries {
        // No `map_err`: what a closure in generic code gives is not known to a proof.
        if let Err(fault) = entry.enter(book) {
            return Err(Stop::at(line, fault));
        }
        line += 1;
    }
    Ok(line)
}

/// Loads a portfolio into a book that the caller has made, under any rule: opens its investees, then makes its posts, to the last
/// entry or to the first that is declined. The book then has the entries before that one; the stop is where it stands in the file.
pub fn load<R: Rule>(book: &mut Book<'_, R>, portfolio: Portfolio<'_>) -> Result<(), Stop>
    ensures tried { outcome (plain book.new) (result_err result) ≡ tried (R.tables book.old.rule.now) first_entry_line (plain book.old) (entries_of (plain_portfolio portfolio.entry)) }
    ensures rule { book.new.rule ≡ book.old.rule }
    ensures in_order { TriedInOrder (R.tables book.old.rule.now) first_entry_line (plain book.old) (entries_of (plain_portfolio portfolio.entry)) (outcome (plain book.new) (result_err result)) }
    ensures whole { ReachedByARun (R.tables book.old.rule.now) (plain book.old) → HoldsWhole (R.tables book.old.rule.now) (plain book.new) }
{
    let line = enter_all(book, portfolio.investees(), FIRST_ENTRY_LINE)?;
    enter_all(book, portfolio.posts(), line)?;
    Ok(())
}
