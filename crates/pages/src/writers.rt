// The lines of a page.
ghost use Rattle.std.specs.Prelude.{[], ◌∷◌, ◌++◌};
ghost use Rattle.lines.specs.Writing.{Wrote};
ghost use Rattle.pages.specs.Page.{head_line, account_line, branch_line, total_line};

use itoa::Integer;
use lines::writing::Writer;
use plain::answers::{InvesteeAccount, Kilograms};

// A number, and the byte that ends its field.
fn put_field<I: Integer>(page: &mut Writer<'_>, n: I, end: u8) -> Option<()>
    ensures { Wrote page.old (I.text n ++ end ∷ []) page.new result }
{
    page.put_number(n)?;
    page.put_byte(end)
}

// `FE n`
pub(crate) fn put_head(page: &mut Writer<'_>, investees: usize) -> Option<()>
    ensures { Wrote page.old (head_line investees) page.new result }
{
    page.put(b"FE ")?;
    put_field(page, investees, b'\n')
}

// `id kilograms reason grade`
pub(crate) fn put_account(page: &mut Writer<'_>, account: InvesteeAccount) -> Option<()>
    ensures { Wrote page.old (account_line account) page.new result }
{
    put_field(page, account.id, b' ')?;
    let total = account.total;
    put_field(page, total.kilograms.emissions, b' ')?;
    page.put_numbers(&[u64::from(total.reason), u64::from(total.grade)])
}

// `B branch kilograms`
pub(crate) fn put_branch(page: &mut Writer<'_>, branch: usize, sheet: Kilograms) -> Option<()>
    ensures { Wrote page.old (branch_line branch sheet) page.new result }
{
    page.put(b"B ")?;
    put_field(page, branch, b' ')?;
    put_field(page, sheet.emissions, b'\n')
}

// `T total`
pub(crate) fn put_total(page: &mut Writer<'_>, total: i64) -> Option<()>
    ensures { Wrote page.old (total_line total) page.new result }
{
    page.put(b"T ")?;
    put_field(page, total, b'\n')
}
