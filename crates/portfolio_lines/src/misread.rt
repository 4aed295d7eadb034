// Refusals of lines.
ghost use Rattle.std.specs.Prelude.{◌≡◌};
ghost use Rattle.portfolio_lines.specs.Misreads.{place_of};

/// Why a line is not read.
// Not `lines`' LineError: here fields are counted from 1 through the whole line, as faults name them.
#[derive(Clone, Copy, Debug, PartialEq, Eq)]
pub enum Misread {
    /// It has more than 511 bytes.
    TooLong,
    /// The first field, from 1, that is wrong, missing or surplus.
    Field(u32),
}

impl Misread {
    /// The field, from 1; 0 stands for the line as a whole.
    pub fn place(self) -> u32
        ensures { result ≡ place_of self }
    {
        match self {
            Misread::TooLong => 0,
            Misread::Field(place) => place,
        }
    }
}
