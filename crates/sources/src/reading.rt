// What a source reads.
ghost use Rattle.std.specs.Prelude.{◌≡◌, IfOk, Some};
ghost use Rattle.faults.specs.Refusals.{fault};
ghost use Rattle.sources.specs.Layout.{reading_text};
ghost use Rattle.sources.specs.Readings.{worked_out, less, LeftOf};

use faults::{Fault, Refusal};
use std::fmt;

// The largest reading in size, and the largest figure in kilograms.
pub const MOST_KILOGRAMS: u64 = 1_000_000_000_000;

// Whole kilograms of CO2 equivalent, and a grade from 1, the best, to 5.
#[derive(Clone, Copy, Debug, PartialEq, Eq)]
pub struct Reading {
    pub kilograms: i64,
    pub grade: u8,
}

impl Reading {
    // The reading that a source works out, unless it is too large.
    pub fn worked_out(kilograms: i64, grade: u8, source: u32) -> Result<Reading, Fault>
        ensures { result ≡ worked_out kilograms grade source }
    {
        if kilograms.unsigned_abs() > MOST_KILOGRAMS {
            return Err(found(Refusal::ResultTooLarge, source));
        }
        Ok(Reading { kilograms, grade })
    }

    // The reading less a part of it, unless the part is above the reading.
    // Refusal and number, and no Fault: one is made only where the part is above.
    pub fn without(self, part: u64, refusal: Refusal, source: u32) -> Result<Reading, Fault>
        ensures value { result ≡ less part refusal source self }
        ensures left { IfOk result (LeftOf self part) }
    {
        if self.kilograms < 0 || part > self.kilograms as u64 {
            return Err(found(refusal, source));
        }
        Ok(Reading {
            kilograms: self.kilograms - part as i64,
            grade: self.grade,
        })
    }
}

// Such as `1000 kg, grade 1`.
impl fmt::Display for Reading {
    ghost output = { λ r. Some (reading_text r.kilograms r.grade) };

    fn fmt<W: fmt::Write>(&self, f: &mut fmt::Formatter<W>) -> fmt::Result {
        write!(f, "{} kg, grade {}", self.kilograms, self.grade)
    }
}

// A fault that a source finds and that names no place.
pub fn found(refusal: Refusal, source: u32) -> Fault
    ensures { result ≡ fault refusal 0 source }
{
    Fault {
        refusal,
        place: 0,
        source,
    }
}
