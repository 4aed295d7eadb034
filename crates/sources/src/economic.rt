// Emissions taken from the mean of a sector.
ghost use Rattle.sources.specs.Bottoms.{economic_meaning};
ghost use Rattle.sources.specs.Within.{economic-within};

use crate::reading::{Reading, found};
use crate::source::Source;
use faults::{Fault, Refusal};

// The largest output, in wan.
pub const MOST_OUTPUT: u64 = 500_000_000;

// The largest mean of a sector, in kilograms for each wan.
pub const MOST_MEAN: u64 = 1_000_000;

// An output and the mean of its sector, as a caller sends them: both numbers may be anything.
#[derive(Clone, Copy)]
pub struct Economic {
    pub output: u64,
    pub mean: u64,
}

impl Source for Economic {
    const NUMBER: u32 = 3;

    ghost meaning = { λ s. economic_meaning s.output s.mean };

    ghost within = { λ s. economic-within s.output s.mean };

    fn read(&self) -> Result<Reading, Fault> {
        if self.output > MOST_OUTPUT || self.mean > MOST_MEAN {
            return Err(found(Refusal::FigureOutOfRange, Self::NUMBER));
        }
        let kilograms = self.output * self.mean;
        Reading::worked_out(kilograms as i64, 5, Self::NUMBER)
    }
}
