// Lines of a file, one after another.
ghost use Rattle.std.specs.Prelude.{◌≡◌};
ghost use Rattle.lines.specs.Pieces.{left_in};
ghost use Rattle.portfolio.specs.Cursors.{lines_left, NextRead, OneFewer};
ghost use Rattle.portfolio.specs.Files.{next_line};
ghost use Rattle.portfolio.specs.Layout.{gone};

use lines::pieces::Pieces;
use portfolio_lines::misread::Misread;

// The next line, which a line feed has to end.
pub fn next_line<'a>(lines: &mut Pieces<'a>) -> Option<&'a [u8]>
    ensures { next_line (left_in lines.old) ≡ gone result (left_in lines.new) }
{
    let line = lines.next()?;
    if lines.rest.is_none() {
        return None;
    }
    Some(line)
}

// So many lines of a file.
// Counted down by hand: `Take` over lines would go on after the first that does not read.
#[derive(Clone, Copy)]
pub struct Section<'a> {
    pub left: usize,
    pub lines: Pieces<'a>,
}

impl Section<'_> {
    // What the next line reads as; nothing after the last, and from the first on that does not read.
    pub(crate) fn read_next<T, F: Fn(&[u8]) -> Result<T, Misread>>(&mut self, read: F) -> Option<T>
        requires { F.IsAlwaysCallable read }
        ensures read { NextRead F.Fn read (lines_left self.old) result (lines_left self.new) }
        ensures left { OneFewer self.old.left result self.new.left }
    {
        let left = self.left.checked_sub(1)?;
        self.left = 0;
        let value = read(next_line(&mut self.lines)?).ok()?;
        self.left = left;
        Some(value)
    }
}
