// A page, from a table of accounts and a table of sheets.
ghost use Rattle.std.specs.Prelude.{◌≡◌, ◌≤◌, length};
ghost use Rattle.std.specs.List.{flat_map};
ghost use Rattle.lines.specs.Writing.{Wrote};
ghost use Rattle.pages.specs.Page.{account_line, branch_lines, given, page_of};

use crate::writers::{put_account, put_branch, put_head, put_total};
use lines::writing::Writer;
use plain::answers::{InvesteeAccount, Kilograms};

// How many accounts a table holds.
fn held(accounts: &[Option<InvesteeAccount>]) -> usize
    ensures { result ≡ length (given accounts.now) }
{
    accounts.iter().flatten().count()
}

// The lines of the investees, in the order of the table.
fn put_accounts(page: &mut Writer<'_>, accounts: &[Option<InvesteeAccount>]) -> Option<()>
    requires { page.old.at ≤ length page.old.buffer.now }
    ensures { Wrote page.old (flat_map account_line (given accounts.now)) page.new result }
{
    for account in accounts.iter().flatten() {
        put_account(page, *account)?;
    }
    Some(())
}

// The lines of the branches that have a sheet, in ascending order.
fn put_sheets(page: &mut Writer<'_>, sheets: &[Option<Kilograms>]) -> Option<()>
    requires { page.old.at ≤ length page.old.buffer.now }
    ensures { Wrote page.old (branch_lines 1 sheets.now) page.new result }
{
    for (i, sheet) in sheets.iter().enumerate() {
        if let Some(sheet) = sheet {
            put_branch(page, i + 1, *sheet)?;
        }
    }
    Some(())
}

// The whole page.
pub(crate) fn put_page(
    page: &mut Writer<'_>,
    accounts: &[Option<InvesteeAccount>],
    sheets: &[Option<Kilograms>],
    total: i64,
) -> Option<()>
    ensures { Wrote page.old (page_of (given accounts.now) sheets.now total) page.new result }
{
    put_head(page, held(accounts))?;
    put_accounts(page, accounts)?;
    put_sheets(page, sheets)?;
    put_total(page, total)
}
