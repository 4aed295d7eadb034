// The book total.
ghost use Rattle.std.specs.Prelude.{◌≡◌, map};
ghost use Rattle.plain.specs.declared.answers.Answer.TheVariants.{Book as BookAnswer};
ghost use Rattle.plain.specs.Runs.{answer_to};
ghost use Rattle.plain.specs.Steps.{for_book_total};
ghost use Rattle.book.specs.Lines.{line_of};
ghost use Rattle.book.specs.Rows.{plain_investee};
ghost use Rattle.book.specs.View.{plain};

use crate::book::Book;
use crate::book::readings::Held;
use crate::book::readings::lines::{Line, Lines, is_project};
use arrayvec::ArrayVec;
use plain::answers::BookTotal;
use plain::limits::MOST_INVESTEES;
use rules::rule::Rule;

impl<'b, 'r, R: Rule> Held<'b, 'r, R> {
    // What it adds to the book's totals.
    fn line(&self) -> Line
        ensures { result ≡ line_of (R.tables self.now.book.now.rule.now) (plain self.now.book.now) (plain_investee self.now.row) }
    {
        let standing = self.standing();
        Line {
            project: is_project(self.row.profile.kind),
            kilograms: standing.whole_shares(self.row),
            positions: standing.positions,
            counted: standing.is_counted(),
            reduced: self.row.reduction.is_some(),
            exposure: standing.exposure,
            grade: self.row.reading.grade,
        }
    }
}

impl<'r, R: Rule> Book<'r, R> {
    // The lines of all investees, in the order of their openings.
    fn lines(&self) -> ArrayVec<Line, MOST_INVESTEES>
        ensures { result.items ≡ map (line_of (R.tables self.now.rule.now) (plain self.now)) (plain self.now).investees }
    {
        let mut lines = ArrayVec::new();
        // A loop, and no `array::from_fn`: the table of a closure is moved at each call that hands it on.
        for &row in self.investees.as_slice() {
            lines.push(Held { book: self, row }.line());
        }
        lines
    }

    /// What falls to all branches for all investees: for projects, for the rest and for all, with the shares of the
    /// positions that this covers, and the mean grade.
    pub fn book_total(&self) -> BookTotal
        ensures { BookAnswer result ≡ answer_to (R.tables self.now.rule.now) (plain self.now) for_book_total }
    {
        let table = self.lines();
        let lines = table.as_slice();
        Lines { lines }.total()
    }
}
