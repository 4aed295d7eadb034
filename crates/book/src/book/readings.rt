// Shares of a figure in whole kilograms, and how an investee stands in a book.
ghost use Rattle.std.specs.Prelude.{◌≡◌, ◌+◌, ◌*◌, ◌≤◌, max, ◌+ℤ◌, ◌-ℤ◌, ◌==◌, unsigned_abs};
ghost use Rattle.rules.specs.Tables.{BaseInRange};
ghost use Rattle.sources.specs.Limits.{most_kilograms};
ghost use Rattle.plain.specs.Exposures.{denominator_from};
ghost use Rattle.plain.specs.Limits.{most_investees};
ghost use Rattle.plain.specs.Parts.{base_of};
ghost use Rattle.plain.specs.Readings.{part_of, total_of};
ghost use Rattle.plain.specs.Rounding.{rounded};
ghost use Rattle.book.specs.Rows.{plain_investee};
ghost use Rattle.book.specs.Shares.{Sizes, added, AtMostFigures};
ghost use Rattle.book.specs.Standings.{standing_of, falls, both_fall, all_falls, whole_turn, Fair, WithinBook};
ghost use Rattle.book.specs.View.{plain};
ghost use Rattle.positions.specs.View.{positions_in};

use crate::book::Book;
use crate::rows::InvesteeRow;
use faults::Refusal;
use plain::answers::{InvesteeTotal, Kilograms};
use positions::lending::Turn;
use rules::MONTHS;
use rules::figures::Base;
use rules::rule::{Rule, attributed};

mod accounts;
mod lines;
mod sheets;

// What the exposures to an investee, added up, are divided by: a base of 0 is taken as 1. An investee that the rule refuses
// is never opened; its base would be the whole.
fn base_of(base: Result<Base, Refusal>, exposure: u64) -> u64
    requires { BaseInRange base }
    ensures { result ≡ max 1 (base_of (denominator_from base) exposure) }
{
    let least = match base {
        Ok(Base::Amount(amount)) => MONTHS * amount,
        Ok(Base::Whole) | Err(_) => 1,
    };
    least.max(exposure)
}

// A figure × an exposure / a base, rounded toward zero.
fn rounded_of(figure: i64, exposure: u64, base: u64) -> i64
    requires { Sizes figure exposure base }
    ensures value { result ≡ rounded figure exposure base }
    ensures bound { unsigned_abs result ≤ most_kilograms }
{
    figure * (exposure as i64) / (base as i64)
}

// The difference of two such shares: a function of its own, as `sum` is, so that 64 bits are shown outside larger proofs.
fn difference(upto: i64, before: i64) -> i64
    requires { (unsigned_abs upto ≤ most_kilograms) × (unsigned_abs before ≤ most_kilograms) }
    ensures { result ≡ upto -ℤ before }
{
    upto - before
}

// What of a figure falls to a turn, after the exposures before it.
fn gained(figure: i64, turn: Turn, base: u64) -> i64
    requires { Sizes figure (turn.before + turn.exposure) base }
    ensures { result ≡ rounded figure (turn.before + turn.exposure) base -ℤ rounded figure turn.before base }
{
    difference(
        rounded_of(figure, turn.before + turn.exposure, base),
        rounded_of(figure, turn.before, base),
    )
}

// One more figure on a sum of them.
fn sum(figures: i64, figure: i64) -> i64
    requires { (unsigned_abs figures ≤ most_investees * most_kilograms) × (unsigned_abs figure ≤ 1 * most_kilograms) }
    ensures { result ≡ figures +ℤ figure }
{
    figures + figure
}

// The kilograms of one more investee. A function: `Kilograms` is a type of `plain`, and only a book has these bounds.
fn added(all: Kilograms, more: Kilograms) -> Kilograms
    requires { AtMostFigures most_investees all × AtMostFigures 1 more }
    ensures { result ≡ added all more }
{
    Kilograms {
        emissions: sum(all.emissions, more.emissions),
        reductions: sum(all.reductions, more.reductions),
    }
}

// The positions and exposures on an investee, what its figures are divided by, and the reason for which the rule leaves it
// out, as pages print it: 0 where it is counted.
#[derive(Clone, Copy)]
struct Standing {
    positions: u64,
    exposure: u64,
    base: u64,
    reason: u8,
}

impl Standing {
    fn is_counted(self) -> bool
        ensures { result ≡ (self.reason == 0) }
    {
        self.reason == 0
    }

    // What of one figure falls to a turn.
    fn share(self, turn: Turn, figure: i64) -> i64
        requires { Sizes figure (turn.before + turn.exposure) self.base }
        ensures { result ≡ falls self turn figure }
    {
        if self.is_counted() {
            gained(figure, turn, self.base)
        } else {
            0
        }
    }

    // What of both figures falls to a turn.
    fn shares(self, turn: Turn, row: InvesteeRow) -> Kilograms
        requires { Fair self turn (plain_investee row) }
        ensures { result ≡ both_fall self turn (plain_investee row) }
    {
        Kilograms {
            emissions: self.share(turn, row.reading.kilograms),
            reductions: self.share(turn, row.reduction.unwrap_or(0)),
        }
    }

    // What of both figures falls to all branches together, as to one turn.
    fn whole_shares(self, row: InvesteeRow) -> Kilograms
        requires { Fair self (whole_turn self) (plain_investee row) }
        ensures { result ≡ all_falls self (plain_investee row) }
    {
        let turn = Turn {
            before: 0,
            exposure: self.exposure,
        };
        self.shares(turn, row)
    }
}

// An investee of a book. Its clauses write out the rule and the plain book, so that each is read by itself.
#[derive(Drop)]
struct Held<'b, 'r, R: Rule> {
    book: &'b Book<'r, R>,
    row: InvesteeRow,
    ghost within: { ∥ WithinBook (positions_in book.now.positions) (plain_investee row) ∥₁ },
}

impl<'b, 'r, R: Rule> Held<'b, 'r, R> {
    // How it stands: the rule is asked once.
    fn standing(&self) -> Standing
        ensures { result ≡ standing_of (R.tables self.now.book.now.rule.now) (plain self.now.book.now) (plain_investee self.now.row) }
    {
        let profile = self.row.profile;
        let lending = self.book.positions.lending(profile.kind, profile.id);
        let attribution = attributed(self.book.rule, profile, lending.exposure, lending.closing);
        Standing {
            positions: lending.positions,
            exposure: lending.exposure,
            base: base_of(attribution.base, lending.exposure),
            reason: attribution.reason,
        }
    }

    // The part of a branch of its figures.
    fn part(&self, branch: u64) -> Kilograms
        ensures { result ≡ part_of (R.tables self.now.book.now.rule.now) (plain self.now.book.now) branch (plain_investee self.now.row) }
    {
        let profile = self.row.profile;
        let turn = self.book.positions.turn(profile.kind, profile.id, branch);
        self.standing().shares(turn, self.row)
    }

    // Its total, rounded once.
    fn total(&self) -> InvesteeTotal
        ensures { result ≡ total_of (R.tables self.now.book.now.rule.now) (plain self.now.book.now) (plain_investee self.now.row) }
    {
        let standing = self.standing();
        InvesteeTotal {
            kilograms: standing.whole_shares(self.row),
            reason: standing.reason,
            grade: self.row.reading.grade,
        }
    }
}
