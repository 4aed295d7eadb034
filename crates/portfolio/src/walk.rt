// One pass over the lines of a file.
ghost use Rattle.std.specs.Prelude.{◌≡◌, ℕ, ◌+◌, ◌^◌, ◌<◌, List, Result, IfOk};
ghost use Rattle.lines.specs.Pieces.{left_in};
ghost use Rattle.portfolio_lines.specs.declared.misread.Misread.{Misread};
ghost use Rattle.portfolio.specs.Layout.{ended};
ghost use Rattle.portfolio.specs.Rows.{Passes, passed, leaving_lines};

use crate::section::{Section, next_line};
use crate::stops::{line_missing, wrong_field};
use entries::stop::Stop;
use lines::pieces::Pieces;
use portfolio_lines::misread::Misread;

// The lines that are still to read, and the number of the next.
#[derive(Clone, Copy)]
pub struct Walk<'a> {
    pub lines: Pieces<'a>,
    pub number: usize,
}

impl<'a> Walk<'a> {
    // The next so many lines, each of which reads.
    pub(crate) fn section<T: Drop, F: Fn(&[u8]) -> Result<T, Misread>>(
        &mut self,
        count: usize,
        read: F,
    ) -> Result<Section<'a>, Stop>
        requires callable { F.IsAlwaysCallable read }
        requires numbers { self.old.number + count < 2 ^ 32 }
        ensures passed { (row : List ℕ → Result (Unit {0}) Misread) → Passes F.Fn read row → passed row count self.old.number (left_in self.old.lines) ≡ leaving_lines result (left_in self.new.lines) }
        ensures section { IfOk result (λ s. (s.left ≡ count) × (s.lines ≡ self.old.lines)) }
        ensures number { IfOk result (λ s. self.new.number ≡ self.old.number + count) }
    {
        let section = Section {
            left: count,
            lines: self.lines,
        };
        let end = self.number + count;
        for number in self.number..end {
            let line = next_line(&mut self.lines).ok_or(line_missing(number))?;
            // No map_err with `?`: a proof knows nothing of what a closure over this reader's answer gives.
            if let Err(misread) = read(line) {
                return Err(wrong_field(number, misread));
            }
        }
        self.number = end;
        Ok(section)
    }

    // Nothing may stand after the last line.
    pub fn end(&mut self) -> Result<(), Stop>
        ensures { result ≡ ended self.old.number (left_in self.old.lines) tt }
    {
        match self.lines.next() {
            Some(piece) if piece.is_empty() && self.lines.rest.is_none() => Ok(()),
            _ => Err(line_missing(self.number)),
        }
    }
}
