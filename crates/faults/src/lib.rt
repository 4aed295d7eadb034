// Why a call is declined, and where.
#![tactic(auto)]

ghost use Rattle.std.specs.Prelude.{◌≡◌, Some};
ghost use Rattle.faults.specs.Refusals.{fault, fault_text, number_of};

use std::error::Error;
use std::fmt;

// The reasons for which a call can be declined; docs/REFUSALS.md has each with its number.
#[derive(Clone, Copy, Debug, PartialEq, Eq)]
pub enum Refusal {
    // Emission sources.
    FigureOutOfRange,
    NeitherVerifiedNorDisclosed,
    TermCount,
    ResultTooLarge,
    OverseasAboveReading,
    OffsetsAboveReading,
    // Attribution rules.
    KindNotCovered,
    FigureNotGiven,
    // The book.
    FieldOutOfRange,
    ReadingBelowZero,
    AlreadyOpen,
    InvesteesFull,
    NotOpen,
    EntryOutOfRange,
    BondOutsideClosingMonth,
    MonthAlreadyPosted,
    MonthNotPosted,
    PositionsFull,
    ExposureTooLarge,
    BondAboveDenominator,
    // The portfolio file and its page.
    FieldNotAsLaidOut,
    FileBeyondLimits,
    LineMissing,
    PageTooShort,
    // Own operations.
    OwnItem,
    // What a caller's own source means by a number of its own.
    Custom(u32),
}

impl Refusal {
    // The number that reports print. A method and no `From`: the name tells which of a fault's numbers it is.
    pub fn number(self) -> u32
        ensures { result ≡ number_of self }
    {
        match self {
            Refusal::FigureOutOfRange => 1,
            Refusal::NeitherVerifiedNorDisclosed => 2,
            Refusal::TermCount => 3,
            Refusal::ResultTooLarge => 4,
            Refusal::OverseasAboveReading => 5,
            Refusal::OffsetsAboveReading => 6,
            Refusal::KindNotCovered => 10,
            Refusal::FigureNotGiven => 11,
            Refusal::FieldOutOfRange => 12,
            Refusal::ReadingBelowZero => 13,
            Refusal::AlreadyOpen => 14,
            Refusal::InvesteesFull => 15,
            Refusal::NotOpen => 16,
            Refusal::EntryOutOfRange => 20,
            Refusal::BondOutsideClosingMonth => 21,
            Refusal::MonthAlreadyPosted => 22,
            Refusal::MonthNotPosted => 23,
            Refusal::PositionsFull => 24,
            Refusal::ExposureTooLarge => 25,
            Refusal::BondAboveDenominator => 26,
            Refusal::FieldNotAsLaidOut => 30,
            Refusal::FileBeyondLimits => 31,
            Refusal::LineMissing => 32,
            Refusal::PageTooShort => 33,
            Refusal::OwnItem => 40,
            Refusal::Custom(number) => number,
        }
    }
}

// A refusal, the place that it names, and the number of the source that found it (0 outside sources).
#[derive(Clone, Copy, Debug, PartialEq, Eq)]
pub struct Fault {
    pub refusal: Refusal,
    // Zeros for no place and no source, and no Options: pages print them, and a caller's source sets them.
    pub place: u32,
    pub source: u32,
}

// `at` and `plain` beside `From`: a `From` takes no place, and without `?` a name says what is made.
impl Fault {
    // A fault found outside sources at a place.
    pub fn at(refusal: Refusal, place: u32) -> Fault
        ensures { result ≡ fault refusal place 0 }
    {
        Fault {
            refusal,
            place,
            source: 0,
        }
    }

    // A fault found outside sources that names no place.
    pub fn plain(refusal: Refusal) -> Fault
        ensures { result ≡ fault refusal 0 0 }
    {
        Fault::at(refusal, 0)
    }
}

// `?` makes a plain fault of a refusal.
impl From<Refusal> for Fault {
    ghost from_gives = { λ refusal made. made ≡ fault refusal 0 0 };

    fn from(refusal: Refusal) -> Fault {
        Fault::plain(refusal)
    }
}

// Such as `refusal 1, place 2, source 2`.
impl fmt::Display for Fault {
    ghost output = { λ f. Some (fault_text f) };

    fn fmt<W: fmt::Write>(&self, f: &mut fmt::Formatter<W>) -> fmt::Result {
        write!(
            f,
            "refusal {}, place {}, source {}",
            self.refusal.number(),
            self.place,
            self.source
        )
    }
}

impl Error for Fault {}

#[cfg(test)]
mod tests {
    use super::{Fault, Refusal};
    use std::test::Fail;

    fn declined(refusal: Refusal) -> Result<(), Refusal> {
        Err(refusal)
    }

    fn passed_on(refusal: Refusal) -> Result<(), Fault> {
        declined(refusal)?;
        Ok(())
    }

    #[test]
    fn converts_and_prints(rt: HostRuntime) -> Result<(), Fail> {
        assert_eq!(rt;
            passed_on(Refusal::NotOpen),
            Err(Fault::plain(Refusal::NotOpen))
        );
        let fault = Fault {
            refusal: Refusal::FigureOutOfRange,
            place: 2,
            source: 3,
        };
        let text = format!(in rt.alloc(); "{fault}")?;
        assert_eq!(rt; text.as_str(), "refusal 1, place 2, source 3");
        Ok(())
    }
}
