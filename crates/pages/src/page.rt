// A book's page in a buffer that the caller lends.
ghost use Rattle.std.specs.Prelude.{◌≡◌, ◌≤◌, length, IfOk};
ghost use Rattle.book.specs.View.{plain};
ghost use Rattle.pages.specs.Page.{page_text};
ghost use Rattle.pages.specs.Placed.{room, room_result, text_result, placed, buffer_after, PageAddsUp};

use crate::tables::put_page;
use book::book::Book;
use faults::{Fault, Refusal};
use lines::writing::Writer;
use rules::rule::Rule;

// The bytes that a buffer has to have. They suffice for every book.
pub const ROOM: usize = 8_192;

// A buffer that has fewer is refused.
pub fn check_room(buffer: &[u8]) -> Result<(), Fault>
    ensures { result ≡ room_result buffer.now }
{
    if buffer.len() < ROOM {
        return Err(Fault::plain(Refusal::PageTooShort));
    }
    Ok(())
}

// The page at the start of a buffer with room for it, and how long it is.
fn write_page<R: Rule>(book: &Book<'_, R>, buffer: &mut [u8]) -> usize
    requires { room ≤ length buffer.old }
    ensures bytes { result ≡ length (page_text (R.tables book.now.rule.now) (plain book.now)) }
    ensures buffer { buffer.new ≡ placed (page_text (R.tables book.now.rule.now) (plain book.now)) buffer.old }
    ensures within { result ≤ room }
{
    let accounts = book.accounts();
    let sheets = book.sheets();
    let total = book.book_total().all.kilograms.emissions;
    let mut page = Writer { buffer, at: 0 };
    put_page(&mut page, &accounts, &sheets, total).unwrap();
    page.at
}

// The page at the start of the buffer, and how long it is. The rest of the buffer stays. A buffer that is too short is
// refused and left as it was.
pub fn page<R: Rule>(book: &Book<'_, R>, buffer: &mut [u8]) -> Result<usize, Fault>
    ensures result { result ≡ text_result (page_text (R.tables book.now.rule.now) (plain book.now)) buffer.old }
    ensures buffer { buffer.new ≡ buffer_after (page_text (R.tables book.now.rule.now) (plain book.now)) buffer.old }
    ensures within { IfOk result (λ bytes. bytes ≤ room) }
    ensures adds_up { PageAddsUp (R.tables book.now.rule.now) (plain book.now) }
{
    check_room(buffer)?;
    Ok(write_page(book, buffer))
}
