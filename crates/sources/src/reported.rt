// Emissions that the investee reports.
ghost use Rattle.std.specs.Prelude.{◌≡◌, ◌++◌, Some, codes, decimal};
ghost use Rattle.std.specs.Option.{ok_or};
ghost use Rattle.sources.specs.Bottoms.{mark_numbered, number_of_mark, reported_meaning};
ghost use Rattle.sources.specs.Within.{reported-within};

use crate::reading::{MOST_KILOGRAMS, Reading, found};
use crate::source::Source;
use faults::{Fault, Refusal};
use std::error::Error;
use std::fmt;

// What a report is marked as.
#[derive(Clone, Copy, Debug, PartialEq, Eq)]
pub enum Mark {
    Neither = 0,
    Verified = 1,
    Disclosed = 2,
}

// The number that a caller sends for a mark.
impl From<Mark> for u64 {
    ghost from_gives = { λ mark n. n ≡ number_of_mark mark };

    fn from(mark: Mark) -> u64 {
        mark as u64
    }
}

// A number that is no mark's.
// Not one type with those of rows and guides: it would stand in `factors`, which knows rows alone.
#[derive(Clone, Copy, Debug, PartialEq, Eq)]
pub struct UnknownMark(pub u64);

impl fmt::Display for UnknownMark {
    ghost output = { λ e. Some (codes "no mark has the number " ++ decimal e.0) };

    fn fmt<W: fmt::Write>(&self, f: &mut fmt::Formatter<W>) -> fmt::Result {
        write!(f, "no mark has the number {}", self.0)
    }
}

impl Error for UnknownMark {}

impl TryFrom<u64> for Mark {
    type Error = UnknownMark;

    ghost try_from_gives = { λ number result. result ≡ ok_or (mark_numbered number) (record { 0 = number }) };

    fn try_from(number: u64) -> Result<Mark, UnknownMark> {
        match number {
            0 => Ok(Mark::Neither),
            1 => Ok(Mark::Verified),
            2 => Ok(Mark::Disclosed),
            _ => Err(UnknownMark(number)),
        }
    }
}

// A report with its mark, as a caller sends them: both numbers may be anything.
#[derive(Clone, Copy)]
pub struct Reported {
    pub kilograms: u64,
    pub mark: u64,
}

impl Source for Reported {
    const NUMBER: u32 = 1;

    ghost meaning = { λ s. reported_meaning s.kilograms s.mark };

    ghost within = { λ s. reported-within s.kilograms s.mark };

    fn read(&self) -> Result<Reading, Fault> {
        let out_of_range = found(Refusal::FigureOutOfRange, Self::NUMBER);
        let mark = Mark::try_from(self.mark).map_err(|_| out_of_range)?;
        if self.kilograms > MOST_KILOGRAMS {
            return Err(out_of_range);
        }
        match mark {
            Mark::Neither => Err(found(Refusal::NeitherVerifiedNorDisclosed, Self::NUMBER)),
            Mark::Verified | Mark::Disclosed => Ok(Reading {
                kilograms: self.kilograms as i64,
                grade: 1,
            }),
        }
    }
}
