// The first line of a file.
ghost use Rattle.std.specs.Prelude.{◌≡◌, ◌≤◌};
ghost use Rattle.portfolio.specs.Files.{most_investees, most_posts};
ghost use Rattle.portfolio.specs.Layout.{head_of, within_limits};

use crate::stops::{file_beyond, wrong_field};
use entries::guide::Guide;
use entries::stop::Stop;
use portfolio_lines::row::read_row;

// The most investees and posts of a file, which knows no book; a book's own limits are in `plain`.
pub const MOST_INVESTEES: u64 = 200;

pub const MOST_POSTS: u64 = 1_000;

// The number of the first line.
pub const HEAD_LINE: usize = 1;

// How many numbers it has.
pub const HEAD_NUMBERS: usize = 3;

// How many lines of each kind follow, and the guide.
#[derive(Clone, Copy)]
pub struct Head {
    pub investees: usize,
    pub posts: usize,
    pub guide: Guide,
    ghost limits: { (investees ≤ most_investees) × (posts ≤ most_posts) },
}

fn within_limits(investees: u64, posts: u64) -> bool
    ensures { result ≡ within_limits investees posts }
{
    investees <= MOST_INVESTEES && posts <= MOST_POSTS
}

impl Head {
    ghost use Rattle.portfolio.specs.Seen.{seen_head};

    // The first line: its layout, then its limits.
    pub fn read(line: &[u8]) -> Result<Head, Stop>
        ensures { seen_head result ≡ head_of line.now }
    {
        let not_laid_out = |misread| wrong_field(HEAD_LINE, misread);
        let [investees, posts, guide] = read_row::<HEAD_NUMBERS>(line).map_err(not_laid_out)?;
        match Guide::try_from(guide) {
            Ok(guide) if within_limits(investees, posts) => Ok(Head {
                investees: investees as usize,
                posts: posts as usize,
                guide,
            }),
            _ => Err(file_beyond()),
        }
    }
}
