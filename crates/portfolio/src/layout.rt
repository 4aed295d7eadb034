// The layout of a file, from the top.
ghost use Rattle.std.specs.Prelude.{◌≡◌};
ghost use Rattle.lines.specs.Pieces.{left_in};
ghost use Rattle.portfolio.specs.Layout.{body_of, layout_of};
ghost use Rattle.portfolio.specs.Refused.{OneStop, RefusesRightly};
ghost use Rattle.portfolio.specs.Seen.{plain_head, seen, Counted};
ghost use Rattle.portfolio.specs.Text.{AcceptsTexts};

use crate::file::{Investees, Portfolio, Posts};
use crate::head::{HEAD_LINE, Head};
use crate::section::next_line;
use crate::stops::{file_beyond, line_missing};
use crate::walk::Walk;
use entries::stop::Stop;
use lines::pieces::Pieces;
use portfolio_lines::investee::read_investee;
use portfolio_lines::posts::{read_balance, read_key};

/// The most bytes of a file.
pub const MOST_BYTES: usize = 65_536;

// The lines after the first.
fn read_body<'a>(lines: Pieces<'a>, head: Head) -> Result<Portfolio<'a>, Stop>
    ensures { seen result ≡ body_of (plain_head head) (left_in lines.entry) }
{
    let mut walk = Walk {
        lines,
        number: HEAD_LINE + 1,
    };
    let investees = walk.section(head.investees, read_investee)?;
    let keys = walk.section(head.posts, read_key)?;
    let balances = walk.section(head.posts, read_balance)?;
    walk.end()?;
    Ok(Portfolio {
        guide: head.guide,
        investees: Investees { lines: investees },
        posts: Posts { keys, balances },
    })
}

/// The portfolio of any bytes, or where they stop being one: the whole layout, from the top. A stop has the number of its
/// line, and refusal 30 (with the place of the field), 31 or 32.
pub fn read<'a>(bytes: &'a [u8]) -> Result<Portfolio<'a>, Stop>
    ensures value { seen result ≡ layout_of bytes.now }
    ensures counts { Counted result }
    ensures refused { RefusesRightly bytes.now (seen result) }
    ensures texts { AcceptsTexts bytes.now (seen result) }
    ensures stops { OneStop bytes.now }
{
    if bytes.len() > MOST_BYTES {
        return Err(file_beyond());
    }
    let mut lines = Pieces::new(bytes, b'\n');
    let line = next_line(&mut lines).ok_or(line_missing(HEAD_LINE))?;
    let head = Head::read(line)?;
    read_body(lines, head)
}
