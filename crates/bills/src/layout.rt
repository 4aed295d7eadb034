// What is printed for a bill.
ghost use Rattle.std.specs.Prelude.{◌≡◌, Some};
ghost use Rattle.std.specs.Fmt.{WritesOnOk};
ghost use Rattle.bills.specs.Layout.{item_line, item_lines, cause_at, field_name, message_of, outcome_text};

use crate::answer::Outcome;
use crate::reading::Malformed;
use grading::hundredths::Hundredths;
use lines::fields::LineError;
use operations::items::Item;
use std::error::Error;
use std::fmt;

// An item with its number in the bill, from 1: one line, without its line feed.
#[derive(Clone, Copy)]
struct Numbered(usize, Item);

impl fmt::Display for Numbered {
    ghost output = { λ n. Some (item_line n.0 n.1) };

    fn fmt<W: fmt::Write>(&self, f: &mut fmt::Formatter<W>) -> fmt::Result {
        let Numbered(number, item) = *self;
        let row = item.activity.row;
        let quantity = item.activity.quantity;
        let grade = item.grade;
        let kilograms = item.kilograms;
        write!(
            f,
            "item {number}: row {row}, quantity {quantity}, grade {grade}: {kilograms} kg"
        )
    }
}

fn write_items<W: fmt::Write>(f: &mut fmt::Formatter<W>, items: &[Item]) -> fmt::Result
    ensures { WritesOnOk W.write_str_gives f.old result (item_lines 1 items.now) f.new }
{
    for (i, item) in items.iter().enumerate() {
        let line = Numbered(i + 1, *item);
        writeln!(f, "{line}")?;
    }
    Ok(())
}

// What a refusal of a table says of the item at a place, from 1, or of the whole table at place 0.
#[derive(Clone, Copy)]
struct Cause(u32);

impl fmt::Display for Cause {
    ghost output = { λ c. Some (cause_at c.0) };

    fn fmt<W: fmt::Write>(&self, f: &mut fmt::Formatter<W>) -> fmt::Result {
        match self.0 {
            0 => write!(f, ": more than 64 items"),
            place => write!(
                f,
                " at item {place}: its row, quantity or grade is out of range, or it passes 10^12 kg"
            ),
        }
    }
}

// What a field of an item's line is, from 0.
fn field_name(i: usize) -> &'static str
    ensures { result.now ≡ field_name i }
{
    match i {
        0 => "row",
        1 => "quantity",
        _ => "grade",
    }
}

// Why a text is not a bill.
impl fmt::Display for Malformed {
    ghost output = { λ m. Some (message_of m) };

    fn fmt<W: fmt::Write>(&self, f: &mut fmt::Formatter<W>) -> fmt::Result {
        match *self {
            Malformed::TooLong => write!(f, "the bill is longer than 65536 bytes"),
            Malformed::Unended(line) => write!(f, "line {line}: not ended by a line feed"),
            Malformed::Line(line, error) => match error {
                LineError::TooLong => write!(f, "line {line}: longer than 512 bytes"),
                LineError::Field(i) => write!(
                    f,
                    "line {line}: the {} is not a number of 1 to 13 digits without leading zeros",
                    field_name(i)
                ),
                LineError::Surplus => {
                    write!(
                        f,
                        "line {line}: more than the three fields row, quantity and grade"
                    )
                }
            },
        }
    }
}

impl Error for Malformed {}

/// A line for each item and two for the totals, or the one line that says why there are none; each ends with a line feed.
impl fmt::Display for Outcome {
    ghost output = { λ o. Some (outcome_text o) };

    fn fmt<W: fmt::Write>(&self, f: &mut fmt::Formatter<W>) -> fmt::Result {
        match self {
            Outcome::Statement(items, totals) => {
                write_items(f, items.as_slice())?;
                let kilograms = totals.kilograms;
                let grade = Hundredths(totals.grade);
                writeln!(f, "total: {kilograms} kg")?;
                writeln!(f, "mean grade: {grade}")
            }
            Outcome::Refused(fault) => {
                let number = fault.refusal.number();
                let cause = Cause(fault.place);
                writeln!(f, "refusal {number}{cause}")
            }
            Outcome::Malformed(malformed) => writeln!(f, "{malformed}"),
        }
    }
}
