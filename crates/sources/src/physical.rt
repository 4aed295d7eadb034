// Emissions from an energy bill.
ghost use Rattle.std.specs.Prelude.{◌≡◌, ◌≤◌, length};
ghost use Rattle.sources.specs.Bottoms.{added, physical_meaning};
ghost use Rattle.sources.specs.Limits.{most_terms};
ghost use Rattle.sources.specs.Within.{physical-within};

use crate::reading::{Reading, found};
use crate::source::Source;
use factors::{Activity, whole_kilograms};
use faults::{Fault, Refusal};

// The most terms that a bill may have.
pub const MOST_TERMS: usize = 16;

// The terms of a bill, which the caller holds: there may be any number of them, of any figures.
#[derive(Clone, Copy)]
pub struct Physical<'a> {
    pub terms: &'a [Activity],
}

// The terms added, in tenths of a gram; the first that is out of range is named by its place, counted from 1.
fn tenths_of_gram(terms: &[Activity]) -> Result<u64, Fault>
    requires { length terms.now ≤ most_terms }
    ensures { result ≡ added terms.now }
{
    // A loop with the index: the first term out of range is named by its place.
    // A `for` and no `try_fold`, in which the bound on the sum so far would not be kept.
    let mut sum = 0;
    for (i, term) in terms.iter().enumerate() {
        let tenths = term.tenths_of_gram().ok_or(Fault {
            refusal: Refusal::FigureOutOfRange,
            place: i as u32 + 1,
            source: Physical::NUMBER,
        })?;
        sum += tenths;
    }
    Ok(sum)
}

impl Source for Physical<'_> {
    const NUMBER: u32 = 2;

    ghost meaning = { λ s. physical_meaning s.terms.now };

    ghost within = { λ s. physical-within s.terms.now };

    fn read(&self) -> Result<Reading, Fault> {
        if self.terms.is_empty() || self.terms.len() > MOST_TERMS {
            return Err(found(Refusal::TermCount, Self::NUMBER));
        }
        // Rounded up to a kilogram once, over all terms.
        let kilograms = whole_kilograms(tenths_of_gram(self.terms)?);
        Reading::worked_out(kilograms as i64, 3, Self::NUMBER)
    }
}
