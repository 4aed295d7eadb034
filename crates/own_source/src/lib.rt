// A source of a caller's own: emissions measured by a gauge at the stack.
#![tactic(auto)]

ghost use Rattle.std.specs.Prelude.{◌≡◌};
ghost use Rattle.sources.specs.Layers.{offset_meaning};
ghost use Rattle.own_source.specs.Measured.{measured_meaning, measured-within};

use faults::{Fault, Refusal};
use sources::offset::{Offset, OffsetFigures};
use sources::reading::{MOST_KILOGRAMS, Reading, found};
use sources::source::Source;

// The hours that a gauge may stand still in a year.
pub const MOST_HOURS_DOWN: u64 = 100;

// This source's own refusal: the gauge stood still for too long.
pub const GAUGE_DOWN: Refusal = Refusal::Custom(7_001);

// What a gauge counted in a year, and the hours in which it stood still: both numbers may be anything.
#[derive(Clone, Copy)]
pub struct GaugeLog {
    pub kilograms: u64,
    pub hours_down: u64,
}

// The log stays with whoever keeps the gauge.
#[derive(Clone, Copy)]
pub struct Measured<'a> {
    pub log: &'a GaugeLog,
}

impl Source for Measured<'_> {
    const NUMBER: u32 = 101;

    ghost meaning = { λ s. measured_meaning s.log.now };

    ghost within = { λ s. measured-within s.log.now };

    fn read(&self) -> Result<Reading, Fault> {
        if self.log.hours_down > MOST_HOURS_DOWN {
            return Err(found(GAUGE_DOWN, Self::NUMBER));
        }
        if self.log.kilograms > MOST_KILOGRAMS {
            return Err(found(Refusal::FigureOutOfRange, Self::NUMBER));
        }
        Ok(Reading {
            kilograms: self.log.kilograms as i64,
            grade: 2,
        })
    }
}

// What a gauge measured, less offsets.
pub fn measured_less_offsets(log: &GaugeLog, figures: OffsetFigures) -> Result<Reading, Fault>
    ensures { result ≡ offset_meaning figures (measured_meaning log.now) }
{
    let below = Measured { log };
    Offset { figures, below }.read()
}

#[cfg(test)]
mod tests {
    use super::*;

    fn less_a_tonne(kilograms: u64, hours_down: u64) -> Result<Reading, Fault> {
        let figures = OffsetFigures {
            green_power: 0,
            ccer: 1,
            tickets: 0,
        };
        let log = GaugeLog {
            kilograms,
            hours_down,
        };
        measured_less_offsets(&log, figures)
    }

    #[test]
    fn own_source_under_a_layer(rt: HostRuntime) {
        let reading = Reading {
            kilograms: 4_000,
            grade: 2,
        };
        assert_eq!(rt; less_a_tonne(5_000, 100), Ok(reading));
        let most = Reading {
            kilograms: 999_999_999_000,
            grade: 2,
        };
        assert_eq!(rt; less_a_tonne(1_000_000_000_000, 100), Ok(most));
        assert_eq!(rt;
            less_a_tonne(1_000_000_000_001, 100),
            Err(found(Refusal::FigureOutOfRange, 101))
        );
        assert_eq!(rt;
            less_a_tonne(1_000_000_000_001, 101),
            Err(found(Refusal::Custom(7_001), 101))
        );
        assert_eq!(rt;
            less_a_tonne(5_000, 101),
            Err(found(Refusal::Custom(7_001), 101))
        );
        assert_eq!(rt;
            less_a_tonne(u64::MAX, 0),
            Err(found(Refusal::FigureOutOfRange, 101))
        );
        let none = Reading {
            kilograms: 0,
            grade: 2,
        };
        assert_eq!(rt; less_a_tonne(1_000, 0), Ok(none));
        assert_eq!(rt;
            less_a_tonne(999, 0),
            Err(found(Refusal::OffsetsAboveReading, 6))
        );
    }
}
