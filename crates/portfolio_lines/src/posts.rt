// The two lines of a post: its key, and its balance.
ghost use Rattle.std.specs.Prelude.{◌≡◌};
ghost use Rattle.lines.specs.Places.{FieldsOfNumbers};
ghost use Rattle.portfolio_lines.specs.Lines.{key_of, balance_of};
ghost use Rattle.portfolio_lines.specs.Numbers.{numbers_of_key, numbers_of_balance};
ghost use Rattle.portfolio_lines.specs.Places.{RefusesWrongLines};
ghost use Rattle.portfolio_lines.specs.Text.{ReadsKeys, ReadsBalances};

use crate::misread::Misread;
use crate::row::read_row;

/// How many numbers the line of a key has.
pub const KEY_NUMBERS: usize = 3;

/// How many numbers the line of a balance has.
pub const BALANCE_NUMBERS: usize = 1;

/// The branch, the investee's id and the month of a post: any numbers of at most 13 digits. A book tries whether they
/// are in range.
#[derive(Clone, Copy, Debug, PartialEq, Eq)]
pub struct Key {
    pub branch: u64,
    pub id: u64,
    pub month: u64,
}

/// The key of a line, which is given without its line feed.
pub fn read_key(line: &[u8]) -> Result<Key, Misread>
    ensures value { result ≡ key_of line.now }
    ensures lines { ReadsKeys line.now result }
    ensures refuses { RefusesWrongLines (FieldsOfNumbers numbers_of_key) line.now result }
{
    let [branch, id, month] = read_row::<KEY_NUMBERS>(line)?;
    Ok(Key { branch, id, month })
}

/// The balance of a line, in wan, which is given without its line feed.
pub fn read_balance(line: &[u8]) -> Result<u64, Misread>
    ensures value { result ≡ balance_of line.now }
    ensures lines { ReadsBalances line.now result }
    ensures refuses { RefusesWrongLines (FieldsOfNumbers numbers_of_balance) line.now result }
{
    let [balance] = read_row::<BALANCE_NUMBERS>(line)?;
    Ok(balance)
}
