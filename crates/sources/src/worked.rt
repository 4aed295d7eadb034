// Worked cases.
ghost use Rattle.std.specs.Prelude.{◌≡◌, pos, negsuc, Ok};
ghost use Rattle.sources.specs.Readings.{reading};
ghost use Rattle.sources.specs.Worked.{WorkedBottoms, WorkedLayers};

use crate::estimate::{Estimate, EstimateFigures};
use crate::physical::Physical;
use crate::reading::Reading;
use crate::reported::{Mark, Reported};
use crate::source::Source;
use factors::Activity;
use faults::Fault;

// A bill of 1,000 kWh outside Shanghai and a litre of diesel.
pub fn worked_bill() -> Result<Reading, Fault>
    ensures value { result ≡ Ok (reading (pos 573) 3) }
    ensures cases { WorkedBottoms }
{
    let power = Activity {
        row: 6,
        quantity: 1_000,
    };
    let diesel = Activity {
        row: 3,
        quantity: 1,
    };
    Physical {
        terms: &[power, diesel],
    }
    .read()
}

// 1,050 kilograms at an output of 100 wan, estimated against 1,000 kilograms at 120 wan.
pub fn worked_estimate() -> Result<Reading, Fault>
    ensures value { result ≡ Ok (reading (negsuc 216) 1) }
    ensures cases { WorkedLayers }
{
    let figures = EstimateFigures {
        report_output: 100,
        base_output: 120,
        base_kilograms: 1_000,
    };
    let below = Reported {
        kilograms: 1_050,
        mark: u64::from(Mark::Verified),
    };
    Estimate { figures, below }.read()
}
