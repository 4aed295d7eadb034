// The sheet of a branch.
ghost use Rattle.std.specs.Prelude.{◌≡◌, ℕ, ◌+◌, ◌<◌, length, if◌then◌else◌, Some, None, slice_index_or};
ghost use Rattle.plain.specs.Branches.{branch_count};
ghost use Rattle.plain.specs.declared.answers.Answer.TheVariants.{Sheet};
ghost use Rattle.plain.specs.Readings.{has_position, part_of, sheet_of, sheets_of};
ghost use Rattle.plain.specs.Runs.{answer_to};
ghost use Rattle.plain.specs.Steps.{for_sheet};
ghost use Rattle.book.specs.Rows.{plain_investee};
ghost use Rattle.book.specs.Shares.{no_kilograms};
ghost use Rattle.book.specs.Standings.{RoomForParts, WithParts};
ghost use Rattle.plain.specs.Told.{told};
ghost use Rattle.book.specs.View.{plain};

use crate::book::Book;
use crate::book::readings::{Held, added};
use faults::{Fault, Refusal};
use plain::answers::Kilograms;
use plain::limits::{BRANCH_ROWS, branch_out_of_range};
use rules::rule::Rule;
use std::array;

impl<'b, 'r, R: Rule> Held<'b, 'r, R> {
    // Adds its parts to the sums of the branches: the rule is asked once, and its positions are read twice.
    fn add_parts(&self, sums: &mut [Kilograms])
        requires { RoomForParts sums.old }
        ensures { WithParts (λ b. part_of (R.tables self.now.book.now.rule.now) (plain self.now.book.now) b (plain_investee self.now.row)) sums.old sums.new }
    {
        let standing = self.standing();
        let profile = self.row.profile;
        let turns = self.book.positions.turns(profile.kind, profile.id);
        // By index: after a `zip` with `iter_mut` a proof knows nothing, and `enumerate` over the sums would go by index too.
        for (k, turn) in turns.iter().enumerate() {
            if let Some(turn) = turn {
                sums[k] = added(sums[k], standing.shares(*turn, self.row));
            }
        }
    }
}

impl<'r, R: Rule> Book<'r, R> {
    // The parts of a branch, added up over all investees: one branch alone, where `all_sheets` works out forty.
    fn sheet_of(&self, branch: u64) -> Kilograms
        ensures { result ≡ sheet_of (R.tables self.now.rule.now) (plain self.now) branch }
    {
        let mut sum = Kilograms::default();
        // A `for` and no fold: the bound on each sum so far is the loop's invariant.
        for &row in self.investees.as_slice() {
            let part = Held { book: self, row }.part(branch);
            sum = added(sum, part);
        }
        sum
    }

    // What falls to one branch for all investees.
    pub fn sheet(&self, branch: u64) -> Result<Kilograms, Fault>
        ensures { told Sheet result ≡ answer_to (R.tables self.now.rule.now) (plain self.now) (for_sheet branch) }
    {
        if branch_out_of_range(branch) {
            return Err(Fault::plain(Refusal::EntryOutOfRange));
        }
        Ok(self.sheet_of(branch))
    }

    // The parts of all branches, from branch 1 on, added up over all investees.
    fn all_sheets(&self) -> [Kilograms; BRANCH_ROWS]
        ensures long { length result ≡ branch_count }
        ensures sheets { (n : ℕ) → n < branch_count → slice_index_or result n no_kilograms ≡ sheet_of (R.tables self.now.rule.now) (plain self.now) (n + 1) }
    {
        let mut sums = [Kilograms::default(); BRANCH_ROWS];
        for &row in self.investees.as_slice() {
            Held { book: self, row }.add_parts(&mut sums);
        }
        sums
    }

    // The sheet of a branch, if it has lent at all.
    fn if_lent(&self, branch: u64, sheet: Kilograms) -> Option<Kilograms>
        ensures { result ≡ (if has_position (plain self.now) branch then Some sheet else None) }
    {
        self.positions.has_branch(branch).then_some(sheet)
    }

    // The sheets of all branches, from branch 1 on: None for a branch without a position.
    pub fn sheets(&self) -> [Option<Kilograms>; BRANCH_ROWS]
        ensures { result ≡ sheets_of (R.tables self.now.rule.now) (plain self.now) }
    {
        let sums = self.all_sheets();
        array::from_fn(|k| self.if_lent(k as u64 + 1, sums[k]))
    }
}
