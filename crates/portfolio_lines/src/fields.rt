// Fields of a line read one after another.
ghost use Rattle.std.specs.Prelude.{◌≡◌};
ghost use Rattle.portfolio_lines.specs.Counted.{fields_left, numbers_in, letter_in, none_left, leaving};

use crate::counted::Fields;
use crate::misread::Misread;
use lines::fields::{WrongField, numbers};

impl Fields<'_> {
    // The next K fields as numbers, or the first that is wrong or missing.
    pub fn numbers<const K: usize>(&mut self) -> Result<[u64; K], Misread>
        ensures { numbers_in K (fields_left self.old) ≡ leaving result (fields_left self.new) }
    {
        let mut pieces = self.pieces;
        // A `match` and no `map_err`: that the place fits is known of this error, and not of each that a closure may get.
        match numbers::<K>(&mut pieces) {
            Ok(ns) => {
                self.pieces = pieces;
                self.place += K as u32;
                Ok(ns)
            }
            Err(WrongField(i)) => Err(Misread::Field(self.place + i as u32)),
        }
    }

    // The next field as a letter.
    pub fn letter(&mut self) -> Result<char, Misread>
        ensures { letter_in (fields_left self.old) ≡ leaving result (fields_left self.new) }
    {
        let mut pieces = self.pieces;
        let Some([letter]) = pieces.next() else {
            return Err(Misread::Field(self.place));
        };
        let letter = char::from(*letter);
        self.pieces = pieces;
        self.place += 1;
        Ok(letter)
    }

    // No field may be left.
    pub fn end(&self) -> Result<(), Misread>
        ensures { result ≡ none_left tt (fields_left self.now) }
    {
        if self.pieces.rest.is_some() {
            return Err(Misread::Field(self.place));
        }
        Ok(())
    }
}
