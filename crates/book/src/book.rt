// The book as it is kept.
ghost use Rattle.plain.specs.Kept.{KeptByEveryRun};
ghost use Rattle.book.specs.Rows.{plain_rows};

use crate::rows::InvesteeRow;
use arrayvec::ArrayVec;
use plain::limits::MOST_INVESTEES;
use positions::Positions;
use rules::rule::Rule;

mod finding;
mod making;
mod opening;
mod posting;
mod readings;
mod restating;
mod running;

/// One lender's book of a year under one rule: up to 200 investees and 500 positions, which lie in the value itself. So no call wants
/// memory; and a book is large, some 88,000 bytes, so make it where it stays and lend it from there.
#[derive(Drop)]
pub struct Book<'r, R: Rule> {
    // Each call says by three clauses what the book, its rule and the answer then are: contracts are read one by one.
    rule: &'r R,
    investees: ArrayVec<InvesteeRow, MOST_INVESTEES>,
    positions: Positions,
    ghost kept: { ∥ KeptByEveryRun (plain_rows investees.items positions) ∥₁ },
}
