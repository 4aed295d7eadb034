// A layer that takes off what arises overseas.
ghost use Rattle.sources.specs.Layers.{overseas_meaning};
ghost use Rattle.sources.specs.Within.{overseas-within};

use crate::reading::{MOST_KILOGRAMS, Reading, found};
use crate::source::{Source, read_without};
use faults::{Fault, Refusal};

// The kilograms that arise overseas, as a caller sends them: any number.
#[derive(Clone, Copy)]
pub struct OverseasFigures {
    pub part: u64,
}

impl OverseasFigures {
    // The number of the layer: `Source::NUMBER` says why it stands here.
    pub const NUMBER: u32 = 5;
}

// The reading of the source below, less its overseas part.
#[derive(Drop)]
pub struct OverseasCut<S> {
    pub figures: OverseasFigures,
    pub below: S,
}

impl<S: Source> Source for OverseasCut<S> {
    const NUMBER: u32 = OverseasFigures::NUMBER;

    ghost meaning = { λ s. overseas_meaning s.figures (S.meaning s.below) };

    ghost within = { λ s. overseas-within s.figures (S.meaning s.below) (S.within s.below) };

    fn read(&self) -> Result<Reading, Fault> {
        if self.figures.part > MOST_KILOGRAMS {
            return Err(found(Refusal::FigureOutOfRange, OverseasFigures::NUMBER));
        }
        read_without(
            &self.below,
            self.figures.part,
            Refusal::OverseasAboveReading,
            OverseasFigures::NUMBER,
        )
    }
}
