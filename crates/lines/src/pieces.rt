// Bytes cut at a separator.
ghost use Rattle.std.specs.Prelude.{◌≡◌, ◌==◌, ◌∷◌};
ghost use Rattle.std.specs.List.{position};
ghost use Rattle.lines.specs.Fields.{pieces, pieces_left};

// Where the first separator stands.
fn find(bytes: &[u8], separator: u8) -> Option<usize>
    ensures { result ≡ position (λ b. b == separator) bytes.now }
{
    bytes.iter().position(|b| *b == separator)
}

// The first piece, and what stands after its separator, if it has one.
fn cut(bytes: &[u8], separator: u8) -> (&[u8], Option<&[u8]>)
    ensures { pieces separator bytes.now ≡ result.0.now ∷ pieces_left separator result.1 }
{
    match find(bytes, separator) {
        Some(end) => (&bytes[..end], Some(&bytes[end + 1..])),
        None => (bytes, None),
    }
}

/// The pieces of some bytes between separators, one after another; there is always at least one.
#[derive(Clone, Copy)]
pub struct Pieces<'a> {
    pub rest: Option<&'a [u8]>,
    pub separator: u8,
}

impl<'a> Pieces<'a> {
    /// All pieces of these bytes.
    pub fn new(bytes: &'a [u8], separator: u8) -> Pieces<'a>
        ensures pieces { pieces_left result.separator result.rest ≡ pieces separator bytes.now }
        ensures separator { result.separator ≡ separator }
    {
        Pieces {
            rest: Some(bytes),
            separator,
        }
    }
}

impl<'a> Iterator for Pieces<'a> {
    ghost use Rattle.std.specs.Iterator.{item_count};
    ghost use Rattle.lines.specs.Pieces.{left_in, GivesFirst};

    type Item = &'a [u8];

    ghost next_gives = { GivesFirst };

    ghost remaining = { item_count left_in };

    // The next piece; nothing after the last.
    fn next(&mut self) -> Option<&'a [u8]> {
        let (piece, after) = cut(self.rest?, self.separator);
        self.rest = after;
        Some(piece)
    }
}
