// A layer that takes off green power and cancelled certificates.
ghost use Rattle.std.specs.Prelude.{◌≡◌, if◌then◌else◌, Some, None};
ghost use Rattle.sources.specs.Layers.{offset_out_of_range, offset_sum, offset_meaning};
ghost use Rattle.sources.specs.Within.{offset-within};

use crate::reading::{Reading, found};
use crate::source::{Source, read_without};
use faults::{Fault, Refusal};

// The most of each offset.
pub const MOST_OFFSET: u64 = 1_000_000_000;

/// What a megawatt hour of green power spares, in tenths of a kilogram. It is a number of its own: an energy bill's factor for power elsewhere has the same value today and need not keep it.
pub const GREEN_POWER_FACTOR: u64 = 5_703;

// Megawatt hours of green power, and tonnes of cancelled CCER and of cancelled forestry tickets, as a caller sends
// them: all three numbers may be anything.
#[derive(Clone, Copy)]
pub struct OffsetFigures {
    pub green_power: u64,
    pub ccer: u64,
    pub tickets: u64,
}

impl OffsetFigures {
    // The number of the layer: `Source::NUMBER` says why it stands here.
    pub const NUMBER: u32 = 6;

    // The kilograms offset: 570.3 for a megawatt hour, toward zero, and 1,000 for a tonne; nothing where a figure is
    // out of range.
    pub fn kilograms(self) -> Option<u64>
        ensures { result ≡ (if offset_out_of_range self then None else Some (offset_sum self)) }
    {
        if self.out_of_range() {
            return None;
        }
        Some(self.green_power * GREEN_POWER_FACTOR / 10 + 1_000 * (self.ccer + self.tickets))
    }

    fn out_of_range(self) -> bool
        ensures { result ≡ offset_out_of_range self }
    {
        self.green_power > MOST_OFFSET || self.ccer > MOST_OFFSET || self.tickets > MOST_OFFSET
    }
}

// The reading of the source below, less its offsets.
#[derive(Drop)]
pub struct Offset<S> {
    pub figures: OffsetFigures,
    pub below: S,
}

impl<S: Source> Source for Offset<S> {
    const NUMBER: u32 = OffsetFigures::NUMBER;

    ghost meaning = { λ s. offset_meaning s.figures (S.meaning s.below) };

    ghost within = { λ s. offset-within s.figures (S.meaning s.below) (S.within s.below) };

    fn read(&self) -> Result<Reading, Fault> {
        let offsets = self
            .figures
            .kilograms()
            .ok_or(found(Refusal::FigureOutOfRange, OffsetFigures::NUMBER))?;
        read_without(
            &self.below,
            offsets,
            Refusal::OffsetsAboveReading,
            OffsetFigures::NUMBER,
        )
    }
}
