// Emission factors, and the kilograms that an activity comes to.
#![tactic(auto)]

ghost use Rattle.std.specs.Prelude.{◌≡◌, ◌++◌, Some, codes, decimal};
ghost use Rattle.std.specs.Option.{ok_or};
ghost use Rattle.factors.specs.Factors.{row_numbered, factor_of, tenths_of, kilograms_of, rounded_up, LeastWhole};

use std::error::Error;
use std::fmt;

// The largest quantity of an activity, in its row's unit.
pub const MOST_QUANTITY: u64 = 10_000_000_000;

// A row of the factor table: a kind of energy, measured in one unit.
#[derive(Clone, Copy, Debug, PartialEq, Eq)]
pub enum Row {
    Coal,
    Petrol,
    Diesel,
    Gas,
    PowerInShanghai,
    PowerElsewhere,
}

// A number that is no row's.
// Not one type with those of marks and guides: it would stand in `factors`, which knows rows alone.
#[derive(Clone, Copy, Debug, PartialEq, Eq)]
pub struct UnknownRow(pub u64);

impl fmt::Display for UnknownRow {
    ghost output = { λ e. Some (codes "no row has the number " ++ decimal e.0) };

    fn fmt<W: fmt::Write>(&self, f: &mut fmt::Formatter<W>) -> fmt::Result {
        write!(f, "no row has the number {}", self.0)
    }
}

impl Error for UnknownRow {}

// The row of a number from 1 to 6.
impl TryFrom<u64> for Row {
    type Error = UnknownRow;

    ghost try_from_gives = { λ number result. result ≡ ok_or (row_numbered number) (record { 0 = number }) };

    fn try_from(number: u64) -> Result<Row, UnknownRow> {
        match number {
            1 => Ok(Row::Coal),
            2 => Ok(Row::Petrol),
            3 => Ok(Row::Diesel),
            4 => Ok(Row::Gas),
            5 => Ok(Row::PowerInShanghai),
            6 => Ok(Row::PowerElsewhere),
            _ => Err(UnknownRow(number)),
        }
    }
}

impl Row {
    // Tenths of a gram of CO2 equivalent for one unit of the row.
    pub fn factor(self) -> u64
        ensures { result ≡ factor_of self }
    {
        match self {
            Row::Coal => 21_989_700,
            Row::Petrol => 22_200,
            Row::Diesel => 27_000,
            Row::Gas => 21_600,
            Row::PowerInShanghai => 4_200,
            Row::PowerElsewhere => 5_703,
        }
    }
}

// Tenths of a gram, rounded up to whole kilograms.
pub fn whole_kilograms(tenths: u64) -> u64
    ensures value { result ≡ rounded_up tenths }
    ensures least { LeastWhole tenths result }
{
    tenths.div_ceil(10_000)
}

// A quantity of what a row of the factor table measures, as a caller sends it: both numbers may be anything.
#[derive(Clone, Copy, Debug, Default, PartialEq, Eq)]
pub struct Activity {
    pub row: u64,
    pub quantity: u64,
}

impl Activity {
    // What the activity emits, in tenths of a gram; nothing where its row or its quantity is out of range.
    pub fn tenths_of_gram(self) -> Option<u64>
        ensures { result ≡ tenths_of self }
    {
        if self.quantity > MOST_QUANTITY {
            return None;
        }
        let row = Row::try_from(self.row).ok()?;
        Some(row.factor() * self.quantity)
    }

    // What the activity emits by itself, rounded up to whole kilograms.
    pub fn kilograms(self) -> Option<u64>
        ensures { result ≡ kilograms_of self }
    {
        Some(whole_kilograms(self.tenths_of_gram()?))
    }
}

#[cfg(test)]
mod tests {
    use super::{Row, UnknownRow};
    use std::test::Fail;

    #[test]
    fn rows_of_numbers(rt: HostRuntime) -> Result<(), Fail> {
        assert_eq!(rt; Row::try_from(6), Ok(Row::PowerElsewhere));
        assert_eq!(rt; Row::try_from(7), Err(UnknownRow(7)));
        let text = format!(in rt.alloc(); "{}", UnknownRow(7))?;
        assert_eq!(rt; text.as_str(), "no row has the number 7");
        Ok(())
    }
}
