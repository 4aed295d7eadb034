// The positions of a book: what each branch has lent to each investee, in the order of the first posts.
#![tactic(auto)]

ghost use Rattle.std.specs.Prelude.{◌≡◌, ◌-◌, ◌*◌, ◌^◌, ◌≤◌, Some, if◌then◌else◌, None, sum_by, ◌==◌, length};
ghost use Rattle.std.specs.Option.{unwrap_or};
ghost use Rattle.rules.specs.Months.{months};
ghost use Rattle.plain.specs.Exposures.{is_bond, closing_of, exposure_of};
ghost use Rattle.plain.specs.Limits.{most_positions};
ghost use Rattle.plain.specs.PlainBook.{new_position, balance_of};
ghost use Rattle.key_index.specs.Keys.{keys_in};
ghost use Rattle.positions.specs.Entries.{written};
ghost use Rattle.positions.specs.Rows.{plain_position, ids_of};
ghost use Rattle.positions.specs.Years.{in_year};

use arrayvec::ArrayVec;
use key_index::KeyIndex;
use plain::limits::MOST_POSITIONS;
use rules::MONTHS;
use rules::kinds::Kind;

mod entering;
pub mod lending;
mod rows_on;

// A place for the balance of each month of the year.
const YEAR: usize = MONTHS as usize;

// What one branch has lent to one investee, in wan, by months. One of branch 0 fills the places that have none yet.
#[derive(Clone, Copy, Default)]
struct PositionRow {
    branch: u8,
    id: u32,
    balances: [Option<u32>; YEAR],
}

/// A table of positions with room for all that a book can hold, in the value itself. The positions on an investee are found by its id.
#[derive(Drop)]
pub struct Positions {
    rows: ArrayVec<PositionRow, MOST_POSITIONS>,
    ids: KeyIndex<MOST_POSITIONS>,
    ghost few: { length rows.items ≤ most_positions },
    ghost indexed: { keys_in ids ≡ ids_of rows.items },
}

// Whether an investee of the kind has one balance in a year.
pub fn is_bond(kind: Kind) -> bool
    ensures { result ≡ is_bond kind }
{
    kind == Kind::Bond
}

// Whether the year has a month of this number. Months stay numbers: callers send any, and each has an answer.
fn in_year(month: u64) -> bool
    ensures { result ≡ in_year month }
{
    (1..=MONTHS).contains(&month)
}

// The place of a month among the balances of a year, if the year has it.
fn place_of_month(month: u64) -> Option<usize>
    ensures { result ≡ (if in_year month then Some (month - 1) else None) }
{
    in_year(month).then(|| month as usize - 1)
}

impl PositionRow {
    // A position before its first post.
    fn new(branch: u8, id: u32) -> PositionRow
        ensures { plain_position result ≡ new_position branch id }
    {
        PositionRow {
            branch,
            id,
            balances: [None; YEAR],
        }
    }

    // Writes the balance of a month, if the year has it.
    fn write(&mut self, month: u64, balance: u32)
        ensures { plain_position self.new ≡ written month balance (plain_position self.old) }
    {
        if let Some(place) = place_of_month(month) {
            self.balances[place] = Some(balance);
        }
    }

    // Whether it is that of a branch.
    fn is_of_branch(self, branch: u64) -> bool
        ensures { result ≡ (self.branch == branch) }
    {
        u64::from(self.branch) == branch
    }

    // The balance of a month, if the year has it and it was posted.
    fn balance(self, month: u64) -> Option<u32>
        ensures { result ≡ (if in_year month then balance_of month (plain_position self) else None) }
    {
        self.balances[place_of_month(month)?]
    }

    // The balance of the last month, 0 if it was not posted.
    fn closing(self) -> u64
        ensures value { result ≡ closing_of (plain_position self) }
        ensures bound { result ≤ 2 ^ 32 }
    {
        self.balance(MONTHS).map_or(0, u64::from)
    }

    // The balances of the year, added up.
    fn lent(self) -> u64
        ensures value { result ≡ sum_by (λ m. unwrap_or m 0) self.balances }
        ensures bound { result ≤ months * 2 ^ 32 }
    {
        self.balances
            .iter()
            .map(|balance| u64::from(balance.unwrap_or(0)))
            .sum()
    }

    // What the branch has lent over the year to an investee of a kind.
    fn exposure(self, kind: Kind) -> u64
        ensures value { result ≡ exposure_of kind (plain_position self) }
        ensures bound { result ≤ months * 2 ^ 32 }
    {
        if is_bond(kind) {
            MONTHS * self.closing()
        } else {
            self.lent()
        }
    }
}
