// Posting and amending balances.
ghost use Rattle.std.specs.Prelude.{◌≡◌, ◌+◌, ◌^◌, ◌≤◌, not, ◌&&◌, ◌==◌};
ghost use Rattle.rules.specs.Months.{months};
ghost use Rattle.plain.specs.EachCall.{OneCall};
ghost use Rattle.plain.specs.Exposures.{is_bond, denominator_from};
ghost use Rattle.plain.specs.Refused.{passes};
ghost use Rattle.plain.specs.Runs.{after, answer};
ghost use Rattle.plain.specs.Steps.{post, amend};
ghost use Rattle.book.specs.Entries.{entry_for, plain_result, EntryFor, counted, failing, too_much_at, post_fault, amend_fault};
ghost use Rattle.book.specs.Rows.{plain_investee};
ghost use Rattle.plain.specs.Told.{told, done};
ghost use Rattle.book.specs.View.{plain};

use crate::book::Book;
use crate::rows::InvesteeRow;
use faults::{Fault, Refusal};
use plain::limits::{entry_out_of_range, exposure_too_large};
use positions::is_bond;
use rules::MONTHS;
use rules::figures::Base;
use rules::kinds::Kind;
use rules::rule::Rule;

// A balance of a month that a branch sends for an investee, with numbers as a caller sends them. It is the book's own and
// not an entry of a file: a book knows no files.
#[derive(Clone, Copy)]
struct Entry {
    branch: u64,
    id: u64,
    month: u64,
    balance: u64,
}

// Whether a bond is posted in another month than the last.
fn bond_outside_closing(kind: Kind, month: u64) -> bool
    ensures { result ≡ (is_bond kind && not (month == months)) }
{
    is_bond(kind) && month != MONTHS
}

// What the balance of one month counts in an exposure: a bond's is counted for each month of the year.
fn counted(kind: Kind, balance: u64) -> u64
    requires { balance ≤ 2 ^ 32 }
    ensures { result ≡ counted kind balance }
{
    if is_bond(kind) {
        MONTHS * balance
    } else {
        balance
    }
}

// An exposure once the balance of one month goes from `old` to `new`.
fn moved(exposure: u64, kind: Kind, old: u64, new: u64) -> u64
    requires small { (exposure ≤ 2 ^ 32) × ((old ≤ 2 ^ 32) × (new ≤ 2 ^ 32)) }
    requires held { counted kind old ≤ exposure + counted kind new }
    ensures { result + counted kind old ≡ exposure + counted kind new }
{
    exposure + counted(kind, new) - counted(kind, old)
}

// Whether an exposure passes the amount that a base has, for each month of the year. The whole and a refusal have none.
fn passes(exposure: u64, base: Result<Base, Refusal>) -> bool
    ensures { result ≡ passes exposure (denominator_from base) }
{
    matches!(base, Ok(Base::Amount(amount)) if u128::from(exposure) > u128::from(MONTHS) * u128::from(amount))
}

// Whether so much may be lent to an investee.
fn may_lend<R: Rule>(rule: &R, row: InvesteeRow, exposure: u64) -> Result<(), Fault>
    ensures { result ≡ failing (too_much_at (R.tables rule.now) (plain_investee row) exposure) }
{
    if exposure_too_large(exposure) {
        return Err(Fault::plain(Refusal::ExposureTooLarge));
    }
    let base = rule.base(row.profile.kind, row.profile.figures);
    if is_bond(row.profile.kind) && passes(exposure, base) {
        return Err(Fault::plain(Refusal::BondAboveDenominator));
    }
    Ok(())
}

impl<'r, R: Rule> Book<'r, R> {
    // The investee that an entry is for, if its numbers are within their ranges.
    fn investee_for(&self, entry: Entry) -> Result<InvesteeRow, Fault>
        ensures { plain_result result ≡ entry_for (plain self.now) entry.branch entry.id entry.month entry.balance }
    {
        if entry_out_of_range(entry.branch, entry.month, entry.balance) {
            return Err(Fault::plain(Refusal::EntryOutOfRange));
        }
        let row = self.investee(entry.id)?;
        if bond_outside_closing(row.profile.kind, entry.month) {
            return Err(Fault::plain(Refusal::BondOutsideClosingMonth));
        }
        Ok(row)
    }

    // Whether an entry for an investee may be posted.
    fn may_post(&self, entry: Entry, row: InvesteeRow) -> Result<(), Fault>
        requires { EntryFor (plain self.now) entry.branch entry.month entry.balance (plain_investee row) }
        ensures { result ≡ failing (post_fault (R.tables self.now.rule.now) (plain self.now) (plain_investee row) entry.branch entry.month entry.balance) }
    {
        let id = u64::from(row.profile.id);
        if self
            .positions
            .balance(entry.branch, id, entry.month)
            .is_some()
        {
            return Err(Fault::plain(Refusal::MonthAlreadyPosted));
        }
        if self.positions.no_room_for(entry.branch, id) {
            return Err(Fault::plain(Refusal::PositionsFull));
        }
        let exposure = moved(self.exposure(row), row.profile.kind, 0, entry.balance);
        may_lend(self.rule, row, exposure)
    }

    // Whether an entry for an investee may replace a balance.
    fn may_amend(&self, entry: Entry, row: InvesteeRow) -> Result<(), Fault>
        requires { EntryFor (plain self.now) entry.branch entry.month entry.balance (plain_investee row) }
        ensures { result ≡ failing (amend_fault (R.tables self.now.rule.now) (plain self.now) (plain_investee row) entry.branch entry.month entry.balance) }
    {
        let id = u64::from(row.profile.id);
        let old = self
            .positions
            .balance(entry.branch, id, entry.month)
            .ok_or(Fault::plain(Refusal::MonthNotPosted))?;
        let exposure = moved(
            self.exposure(row),
            row.profile.kind,
            u64::from(old),
            entry.balance,
        );
        may_lend(self.rule, row, exposure)
    }

    /// Enters the balance, in wan, of a month that has none. The first post of a branch for an investee makes its position.
    ///
    /// A branch is from 1 to 40, a month from 1 to 12, and a balance at most 9,000,000.
    ///
    /// Refusals, in their order: 20, branch, month or balance is out of its range; 16, the id is not open; 21, a bond, and the
    /// month is not the last; 22, the month has a balance; 24, the position is new, and 500 are held; 25, the exposure would pass
    /// 9,000,000; 26, a bond's exposure would pass its denominator.
    // A post and an amendment are asked by four numbers, since the plain book's steps are.
    pub fn post(&mut self, branch: u64, id: u64, month: u64, balance: u64) -> Result<(), Fault>
        ensures book { plain self.new ≡ after (R.tables self.old.rule.now) (plain self.old) (post branch id month balance) }
        ensures rule { self.new.rule ≡ self.old.rule }
        ensures told { told done result ≡ answer (R.tables self.old.rule.now) (plain self.old) (post branch id month balance) }
        ensures one_call { OneCall (R.tables self.old.rule.now) (plain self.old) (post branch id month balance) (told done result) (plain self.new) }
    {
        let entry = Entry {
            branch,
            id,
            month,
            balance,
        };
        let row = self.investee_for(entry)?;
        self.may_post(entry, row)?;
        // By `as`, and without a look at the answer: the ranges and the room were asked above.
        self.positions
            .enter(branch as u8, row.profile.id, month, balance as u32);
        Ok(())
    }

    /// Replaces the balance, in wan, of a month that has one, and touches no other.
    ///
    /// Ranges and refusals are those of a post, but that 23, the month has no balance, stands in place of 22 and 24.
    pub fn amend(&mut self, branch: u64, id: u64, month: u64, balance: u64) -> Result<(), Fault>
        ensures book { plain self.new ≡ after (R.tables self.old.rule.now) (plain self.old) (amend branch id month balance) }
        ensures rule { self.new.rule ≡ self.old.rule }
        ensures told { told done result ≡ answer (R.tables self.old.rule.now) (plain self.old) (amend branch id month balance) }
        ensures one_call { OneCall (R.tables self.old.rule.now) (plain self.old) (amend branch id month balance) (told done result) (plain self.new) }
    {
        let entry = Entry {
            branch,
            id,
            month,
            balance,
        };
        let row = self.investee_for(entry)?;
        self.may_amend(entry, row)?;
        // By `as`: the ranges were asked above.
        self.positions
            .replace(branch as u8, row.profile.id, month, balance as u32);
        Ok(())
    }
}
