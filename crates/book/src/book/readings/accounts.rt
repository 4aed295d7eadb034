// The readings of one investee, the part of a branch and the total, and the totals of all.
ghost use Rattle.std.specs.Prelude.{◌≡◌};
ghost use Rattle.plain.specs.declared.answers.Answer.TheVariants.{Part, Total};
ghost use Rattle.plain.specs.Limits.{most_investees};
ghost use Rattle.plain.specs.Readings.{account_of, accounts_of};
ghost use Rattle.plain.specs.Runs.{answer_to};
ghost use Rattle.plain.specs.Steps.{for_part, for_total};
ghost use Rattle.book.specs.Listed.{listed};
ghost use Rattle.book.specs.Rows.{plain_investee};
ghost use Rattle.plain.specs.Told.{told};
ghost use Rattle.book.specs.View.{plain};

use crate::book::Book;
use crate::book::readings::Held;
use faults::{Fault, Refusal};
use plain::answers::{InvesteeAccount, InvesteeTotal, Kilograms};
use plain::limits::{MOST_INVESTEES, branch_out_of_range};
use rules::rule::Rule;

impl<'b, 'r, R: Rule> Held<'b, 'r, R> {
    // The investee by its id, with its total.
    fn account(&self) -> InvesteeAccount
        ensures { result ≡ account_of (R.tables self.now.book.now.rule.now) (plain self.now.book.now) (plain_investee self.now.row) }
    {
        InvesteeAccount {
            id: self.row.profile.id,
            total: self.total(),
        }
    }
}

impl<'r, R: Rule> Book<'r, R> {
    // What falls to one branch for one investee.
    pub fn part(&self, id: u64, branch: u64) -> Result<Kilograms, Fault>
        ensures { told Part result ≡ answer_to (R.tables self.now.rule.now) (plain self.now) (for_part id branch) }
    {
        if branch_out_of_range(branch) {
            return Err(Fault::plain(Refusal::EntryOutOfRange));
        }
        let row = self.investee(id)?;
        Ok(Held { book: self, row }.part(branch))
    }

    // What falls to all branches for one investee, the reason for which it is left out, or 0, and its grade.
    pub fn total(&self, id: u64) -> Result<InvesteeTotal, Fault>
        ensures { told Total result ≡ answer_to (R.tables self.now.rule.now) (plain self.now) (for_total id) }
    {
        let row = self.investee(id)?;
        Ok(Held { book: self, row }.total())
    }

    /// Every investee with its total, in the order of the openings, and None in the places after them: a table like that of
    /// `sheets`, so that a page goes over both alike.
    pub fn accounts(&self) -> [Option<InvesteeAccount>; MOST_INVESTEES]
        ensures { result ≡ listed most_investees (accounts_of (R.tables self.now.rule.now) (plain self.now)) }
    {
        let mut accounts = [None; MOST_INVESTEES];
        // By index, as in `add_parts`; and no `from_fn`, as in `lines`.
        for (place, &row) in self.investees.as_slice().iter().enumerate() {
            accounts[place] = Some(Held { book: self, row }.account());
        }
        accounts
    }
}
