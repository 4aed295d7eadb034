// A new book.
ghost use Rattle.std.specs.Prelude.{◌≡◌};
ghost use Rattle.plain.specs.PlainBook.{empty};
ghost use Rattle.plain.specs.Runs.{ReachedByARun};
ghost use Rattle.book.specs.View.{plain};

use crate::book::Book;
use arrayvec::ArrayVec;
use positions::Positions;
use rules::rule::Rule;

impl<'r, R: Rule> Book<'r, R> {
    /// A book without investees under a rule.
    pub fn new(rule: &'r R) -> Book<'r, R>
        ensures empty { plain result ≡ empty }
        ensures rule { result.rule.now ≡ rule.now }
        ensures reached { ReachedByARun (R.tables rule.now) (plain result) }
    {
        Book {
            rule,
            investees: ArrayVec::new(),
            positions: Positions::new(),
        }
    }
}
