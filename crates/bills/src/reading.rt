// The items of a bill.
ghost use Rattle.std.specs.Prelude.{◌≡◌, ◌≤◌, [], ◌∷◌, ◌++◌, length, take};
ghost use Rattle.lines.specs.Fields.{pieces};
ghost use Rattle.bills.specs.Bills.{item_in, items_of, items_in, most_held, held};

use arrayvec::ArrayVec;
use lines::fields::LineError;
use lines::line::number_line;
use lines::pieces::Pieces;
use operations::items::Item;
use operations::work::MOST_ITEMS;

/// The most bytes of a bill.
pub const MOST_BYTES: usize = 65_536;

/// One item more than a table may have: with it a table is known to be too long, and no further item matters.
pub const MOST_HELD: usize = MOST_ITEMS + 1;

/// The items of a bill in their order, as far as they matter.
pub type Items = ArrayVec<Item, MOST_HELD>;

/// Why a text is not a bill. Lines are counted from 1.
#[derive(Clone, Copy, Debug, PartialEq, Eq)]
pub enum Malformed {
    /// It has more than 65,536 bytes.
    TooLong,
    /// The line of this number does not end with a line feed.
    Unended(usize),
    /// The line of this number is not three numbers.
    Line(usize, LineError),
}

// The item of a line: row, quantity, grade.
fn read_item(line: &[u8]) -> Result<Item, LineError>
    ensures { result ≡ item_in line.now }
{
    let [row, quantity, grade] = number_line::<3>(line)?;
    Ok(Item::new(row, quantity, grade))
}

// Adds an item at the end, if there is room.
fn keep(items: &mut Items, item: Item)
    ensures { items.new.items ≡ take most_held (items.old.items ++ item ∷ []) }
{
    if !items.is_full() {
        items.push(item);
    }
}

// Every line is read, also where no further item is kept: the first wrong line is named even if there are too many items.
fn read_lines(text: &[u8]) -> Result<Items, Malformed>
    requires { length text.now ≤ 65536 }
    ensures { result ≡ held (items_of 1 (pieces 10 text.now)) }
{
    let mut items = Items::new();
    let mut lines = Pieces::new(text, b'\n');
    let mut number = 1;
    // A `while let` and no `for`: its body asks `lines.rest`, which tells an unended line from the end.
    while let Some(line) = lines.next() {
        if lines.rest.is_none() {
            if line.is_empty() {
                return Ok(items);
            }
            return Err(Malformed::Unended(number));
        }
        match read_item(line) {
            Ok(item) => keep(&mut items, item),
            Err(error) => return Err(Malformed::Line(number, error)),
        }
        number += 1;
    }
    Ok(items)
}

/// The items of a bill, line by line from the top: the first 65 of them if there are more. Or why the text is no bill.
pub fn read_bill(text: &[u8]) -> Result<Items, Malformed>
    ensures { result ≡ held (items_in text.now) }
{
    if text.len() > MOST_BYTES {
        return Err(Malformed::TooLong);
    }
    read_lines(text)
}
