// What every source of emissions offers.
ghost use Rattle.std.specs.Prelude.{◌≡◌, Result};
ghost use Rattle.faults.specs.declared.Fault.{Fault};
ghost use Rattle.sources.specs.Readings.{WithinLimits, less, on_ok};
ghost use Rattle.sources.specs.declared.reading.Reading.{Reading};

use crate::reading::Reading;
use faults::{Fault, Refusal};

// Where an investee's emissions come from: a report, an energy bill, a layer over another source. Reading a source
// changes nothing, and gives its meaning each time.
// Layers are three types and no one `Layer<F, S>`: they check, read and refuse each in its own way.
pub trait Source {
    // The number that is carried in each fault that the source finds by itself.
    // In the proof of a generic impl `Self::NUMBER` is an unknown number, so a layer's figures hold it; a
    // ghost constant here gets no proof at a source that borrows.
    const NUMBER: u32;

    // One reading or one fault.
    ghost meaning: { Self → Result Reading Fault };

    // A reading is at most 10^12 kilograms in size, and has a grade from 1 to 5.
    ghost within: { (s : Self) → WithinLimits (meaning s) };

    fn read(&self) -> Result<Reading, Fault>
        ensures { result ≡ meaning self.now };
}

// The reading of any source, with the limits that every source shows.
pub fn read_within_limits<S: Source>(source: &S) -> Result<Reading, Fault>
    ensures value { result ≡ S.meaning source.now }
    ensures limits { WithinLimits result }
{
    source.read()
}

// The reading of the source below a layer, less a part of it, unless the part is above the reading.
// Refusal and number, and no Fault: one is made only where the part is above.
pub(crate) fn read_without<S: Source>(
    below: &S,
    part: u64,
    refusal: Refusal,
    number: u32,
) -> Result<Reading, Fault>
    ensures { result ≡ on_ok (less part refusal number) (S.meaning below.now) }
{
    below.read()?.without(part, refusal, number)
}
