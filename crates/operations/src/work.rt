// A table of items, worked out in place.
ghost use Rattle.std.specs.Prelude.{◌≡◌, length, map, nat_lt};
ghost use Rattle.std.specs.Result.{result_err};
ghost use Rattle.operations.specs.Items.{most_items, worked};
ghost use Rattle.operations.specs.Tables.{refusal_of, worked_out, table_after, RefusedFor, AnsweredFor};

use crate::items::{Item, Totals};
use faults::{Fault, Refusal};
use grading::mean;

// The most items that a table may have.
pub const MOST_ITEMS: usize = 64;

// Whether a table has more items than it may have.
fn too_many(items: &[Item]) -> bool
    ensures { result ≡ nat_lt most_items (length items.now) }
{
    items.len() > MOST_ITEMS
}

// Declines a table of too many items, and one with an item that is not acceptable.
fn checked(items: &[Item]) -> Result<(), Fault>
    ensures value { result_err result ≡ refusal_of items.now }
    ensures cause { RefusedFor items.now (result_err result) }
{
    if too_many(items) {
        return Err(Fault::plain(Refusal::OwnItem));
    }
    match items.iter().position(|item| item.kilograms_in().is_none()) {
        Some(i) => Err(Fault::at(Refusal::OwnItem, i as u32 + 1)),
        None => Ok(()),
    }
}

// Writes each item's kilograms into it.
fn write(items: &mut [Item])
    ensures { items.new ≡ map worked items.old }
{
    for item in items {
        *item = item.worked();
    }
}

// Writes each item's kilograms, rounded up, into the item; a table that is refused stays as it was.
pub fn work_out(items: &mut [Item]) -> Result<Totals, Fault>
    ensures answer { result ≡ worked_out items.old }
    ensures table { items.new ≡ table_after items.old }
    ensures cause { AnsweredFor items.old result }
{
    checked(items)?;
    write(items);
    Ok(Totals {
        kilograms: items.iter().map(|item| item.kilograms).sum(),
        grade: mean(items),
    })
}
