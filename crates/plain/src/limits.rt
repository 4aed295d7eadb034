// How much one book holds, and the tests on what a caller sends it.
ghost use Rattle.std.specs.Prelude.{◌≡◌, nat_le, nat_lt};
ghost use Rattle.plain.specs.Limits.{most_investees, most_positions, most_exposure};
ghost use Rattle.plain.specs.Refused.{branch_out_of_range, entry_out_of_range};

use rules::MONTHS;

// Branches are numbered from 1.
pub const BRANCHES: u64 = 40;

// How many rows a table has that gives one to each branch, from branch 1 on.
pub const BRANCH_ROWS: usize = BRANCHES as usize;

pub const MOST_INVESTEES: usize = 200;

// A position is one branch on one investee.
pub const MOST_POSITIONS: usize = 500;

// The largest balance of a month, in wan.
pub const MOST_BALANCE: u64 = 9_000_000;

// A figure of at most 10^12 kilograms times it fits 64 bits with a sign.
pub use rules::investees::MOST_EXPOSURE;

// Whether no branch has this number.
pub fn branch_out_of_range(branch: u64) -> bool
    ensures { result ≡ branch_out_of_range branch }
{
    !(1..=BRANCHES).contains(&branch)
}

// Whether the branch, the month or the balance of a post or an amendment is out of range.
pub fn entry_out_of_range(branch: u64, month: u64, balance: u64) -> bool
    ensures { result ≡ entry_out_of_range branch month balance }
{
    branch_out_of_range(branch) || !(1..=MONTHS).contains(&month) || balance > MOST_BALANCE
}

// Whether a book of so many investees takes no other. Books ask by this and the next, and not by the size of a table: so their
// limits are those of this file. Each is one comparison, shorter than a function over any limit.
pub fn full_of_investees(held: usize) -> bool
    ensures { result ≡ nat_le most_investees held }
{
    held >= MOST_INVESTEES
}

// Whether a book of so many positions takes no other.
pub fn full_of_positions(held: usize) -> bool
    ensures { result ≡ nat_le most_positions held }
{
    held >= MOST_POSITIONS
}

// Whether so much is more than may be lent to one investee.
pub fn exposure_too_large(exposure: u64) -> bool
    ensures { result ≡ nat_lt most_exposure exposure }
{
    exposure > MOST_EXPOSURE
}
