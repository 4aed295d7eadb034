// Text and decimal numbers written into a buffer that a caller lends.
ghost use Rattle.std.specs.Prelude.{◌≡◌, [], ◌∷◌, length, nat_le, IfNone, OnSome};
ghost use Rattle.lines.specs.Render.{number_line, FitOneLine, ReadsBack};
ghost use Rattle.lines.specs.Writing.{Wrote};

use itoa::{Buffer, Integer};

/// A buffer, and the place where the next text goes, over what stands there. A `put` that does not fit gives None and
/// changes nothing.
// An Option: that a text does not fit is all there is to say, and `?` passes it on.
// No io::Write: a text that does not fit is not written in part, and contracts have the place after each `put`.
#[derive(Drop)]
pub struct Writer<'a> {
    pub buffer: &'a mut [u8],
    pub at: usize,
}

// Whether a line of these numbers has at most so many bytes.
// A loop and no sum: it ends at the first number without room, however many follow.
fn line_fits(numbers: &[u64], room: usize) -> bool
    ensures { result ≡ nat_le (length (number_line numbers.now)) room }
{
    if numbers.is_empty() {
        return room > 0;
    }
    let mut left = room;
    for n in numbers {
        let count = Buffer::new().format(*n).len() + 1;
        if left < count {
            return false;
        }
        left -= count;
    }
    true
}

impl Writer<'_> {
    /// Any bytes, as they are.
    pub fn put(&mut self, text: &[u8]) -> Option<()>
        ensures wrote { Wrote self.old text.now self.new result }
        ensures unchanged { IfNone result (self.new ≡ self.old) }
    {
        let buffer = &mut *self.buffer;
        let end = self.at.checked_add(text.len())?;
        // A test and no `get_mut`: after it a proof knows nothing of the slice's elements.
        if end > buffer.len() {
            return None;
        }
        buffer[self.at..end].copy_from_slice(text);
        self.at = end;
        Some(())
    }

    /// One byte.
    pub fn put_byte(&mut self, byte: u8) -> Option<()>
        ensures wrote { Wrote self.old (byte ∷ []) self.new result }
        ensures unchanged { IfNone result (self.new ≡ self.old) }
    {
        self.put(&[byte])
    }

    /// A number in decimal, with a minus sign before the digits if it is below zero.
    pub fn put_number<I: Integer>(&mut self, n: I) -> Option<()>
        ensures wrote { Wrote self.old (I.text n) self.new result }
        ensures unchanged { IfNone result (self.new ≡ self.old) }
    {
        self.put(Buffer::new().format(n).as_bytes())
    }

    // A line of numbers, as far as it fits.
    fn put_line(&mut self, numbers: &[u64]) -> Option<()>
        ensures { Wrote self.old (number_line numbers.now) self.new result }
    {
        let Some((first, rest)) = numbers.split_first() else {
            return self.put_byte(b'\n');
        };
        self.put_number(*first)?;
        for n in rest {
            self.put_byte(b' ')?;
            self.put_number(*n)?;
        }
        self.put_byte(b'\n')
    }

    /// Numbers in decimal with one space between them, and a line feed.
    #[tactic(auto, using(crate::proofs::NumberLines::reads_back))]
    pub fn put_numbers(&mut self, numbers: &[u64]) -> Option<()>
        ensures wrote { Wrote self.old (number_line numbers.now) self.new result }
        ensures unchanged { IfNone result (self.new ≡ self.old) }
        ensures reads_back { FitOneLine numbers.now → OnSome result (ReadsBack numbers.now self.new.buffer.now self.old.at self.new.at) }
    {
        let room = self.buffer.len().checked_sub(self.at)?;
        if !line_fits(numbers, room) {
            return None;
        }
        self.put_line(numbers)
    }
}
