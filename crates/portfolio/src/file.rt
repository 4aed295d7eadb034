// A portfolio in the bytes of a file: its guide, and cursors to its investees and posts.
ghost use Rattle.std.specs.Prelude.{◌≡◌, ◌≤◌, length};
ghost use Rattle.portfolio.specs.Cursors.{investees_left, posts_left, investee_count, post_count};
ghost use Rattle.portfolio.specs.Files.{most_investees, most_posts};

use crate::section::Section;
use entries::guide::Guide;
use entries::investee::{InvesteeEntry, PostEntry};
use portfolio_lines::investee::read_investee;
use portfolio_lines::posts::{Key, read_balance, read_key};

/// The investees of a file that are still to read.
#[derive(Clone, Copy)]
pub struct Investees<'a> {
    pub(crate) lines: Section<'a>,
}

impl Investees<'_> {
    /// How many are left.
    pub fn len(&self) -> usize
        ensures { result ≡ investee_count self.now }
    {
        self.lines.left
    }
}

impl Iterator for Investees<'_> {
    ghost use Rattle.std.specs.Iterator.{item_count};
    ghost use Rattle.portfolio.specs.Cursors.{investees_left, GivesInvestee};

    type Item = InvesteeEntry;

    ghost next_gives = { GivesInvestee };

    ghost remaining = { item_count investees_left };

    // The next investee in the order of the file; nothing after the last.
    fn next(&mut self) -> Option<InvesteeEntry> {
        self.lines.read_next(read_investee)
    }
}

/// The posts of a file that are still to read: their keys, and their balances further down.
#[derive(Clone, Copy)]
pub struct Posts<'a> {
    pub(crate) keys: Section<'a>,
    pub(crate) balances: Section<'a>,
}

impl Posts<'_> {
    /// How many are left.
    pub fn len(&self) -> usize
        ensures { result ≡ post_count self.now }
    {
        self.keys.left
    }
}

impl Iterator for Posts<'_> {
    ghost use Rattle.std.specs.Iterator.{item_count};
    ghost use Rattle.portfolio.specs.Cursors.{posts_left, GivesPost};

    type Item = PostEntry;

    ghost next_gives = { GivesPost };

    ghost remaining = { item_count posts_left };

    // The next post in the order of the file; nothing after the last.
    fn next(&mut self) -> Option<PostEntry> {
        let Key { branch, id, month } = self.keys.read_next(read_key)?;
        let Some(balance) = self.balances.read_next(read_balance) else {
            // A key without its balance is no post, and none after it is counted.
            self.keys = Section {
                left: 0,
                ..self.keys
            };
            return None;
        };
        Some(PostEntry {
            branch,
            id,
            month,
            balance,
        })
    }
}

/// A file that is laid out.
#[derive(Clone, Copy)]
pub struct Portfolio<'a> {
    pub(crate) guide: Guide,
    pub(crate) investees: Investees<'a>,
    pub(crate) posts: Posts<'a>,
    pub ghost counted: { (investee_count investees ≡ length (investees_left investees)) × (post_count posts ≡ length (posts_left posts)) },
    pub ghost few: { (investee_count investees ≤ most_investees) × (post_count posts ≤ most_posts) },
}

impl<'a> Portfolio<'a> {
    ghost use Rattle.portfolio.specs.Seen.{plain_portfolio};

    /// The guide that line 1 names.
    pub fn guide(&self) -> Guide
        ensures { result ≡ (plain_portfolio self.now).guide }
    {
        self.guide
    }

    /// All its investees, in their order.
    pub fn investees(&self) -> Investees<'a>
        ensures left { investees_left result ≡ (plain_portfolio self.now).investees }
        ensures count { investee_count result ≡ investee_count self.now.investees }
    {
        self.investees
    }

    /// All its posts, in their order.
    pub fn posts(&self) -> Posts<'a>
        ensures left { posts_left result ≡ (plain_portfolio self.now).posts }
        ensures count { post_count result ≡ post_count self.now.posts }
    {
        self.posts
    }
}
