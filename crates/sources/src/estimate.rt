// A layer that estimates what was saved since a base period.
ghost use Rattle.std.specs.Prelude.{◌≡◌, ◌*◌, ◌≤◌, IfSome, if◌then◌else◌, Some, None};
ghost use Rattle.sources.specs.Layers.{estimate_out_of_range, expected, estimate_meaning};
ghost use Rattle.sources.specs.Limits.{most_period_output, most_kilograms};
ghost use Rattle.sources.specs.Readings.{TowardZero};
ghost use Rattle.sources.specs.Within.{estimate-within};

use crate::reading::{MOST_KILOGRAMS, Reading, found};
use crate::source::{Source, read_within_limits};
use faults::{Fault, Refusal};

// The largest output of a period, in wan.
pub const MOST_PERIOD_OUTPUT: u64 = 9_000_000;

// The output of the report period and of the base period, in wan, and what the base period emitted, as a caller
// sends them: all three numbers may be anything.
#[derive(Clone, Copy)]
pub struct EstimateFigures {
    pub report_output: u64,
    pub base_output: u64,
    pub base_kilograms: u64,
}

impl EstimateFigures {
    // The number of the layer: `Source::NUMBER` says why it stands here.
    pub const NUMBER: u32 = 4;

    // What the base period would have emitted at the output of the report period, in kilograms toward zero; nothing
    // where a figure is out of range.
    pub fn expected(self) -> Option<u64>
        ensures value { result ≡ (if estimate_out_of_range self then None else Some (expected self)) }
        ensures rounded { IfSome result (TowardZero (self.report_output * self.base_kilograms) self.base_output) }
        ensures bound { IfSome result (λ kilograms. kilograms ≤ most_period_output * most_kilograms) }
    {
        if self.out_of_range() {
            return None;
        }
        Some(self.report_output * self.base_kilograms / self.base_output)
    }

    fn out_of_range(self) -> bool
        ensures { result ≡ estimate_out_of_range self }
    {
        self.report_output > MOST_PERIOD_OUTPUT
            || self.base_output == 0
            || self.base_output > MOST_PERIOD_OUTPUT
            || self.base_kilograms > MOST_KILOGRAMS
    }
}

// An estimate of the saving against the reading of the source below: the reading is below 0 where more was emitted
// than expected.
#[derive(Drop)]
pub struct Estimate<S> {
    pub figures: EstimateFigures,
    pub below: S,
}

impl<S: Source> Source for Estimate<S> {
    const NUMBER: u32 = EstimateFigures::NUMBER;

    ghost meaning = { λ s. estimate_meaning s.figures (S.meaning s.below) };

    ghost within = { λ s. estimate-within s.figures (S.meaning s.below) (S.within s.below) };

    fn read(&self) -> Result<Reading, Fault> {
        let expected = self
            .figures
            .expected()
            .ok_or(found(Refusal::FigureOutOfRange, EstimateFigures::NUMBER))?;
        let below = read_within_limits(&self.below)?;
        Reading::worked_out(
            expected as i64 - below.kilograms,
            below.grade,
            EstimateFigures::NUMBER,
        )
    }
}
