// The guides that a file can name, as one rule.
ghost use Rattle.std.specs.Prelude.{◌≡◌, ◌++◌, Some, codes, decimal};
ghost use Rattle.std.specs.Option.{ok_or};
ghost use Rattle.entries.specs.Guides.{guide_numbered, guide_tables, guide-lawful};

use faults::Refusal;
use rules::figures::{Base, Figures};
use rules::investees::Financing;
use rules::kinds::Kind;
use rules::national::National;
use rules::pudong::Pudong;
use rules::rule::Rule;
use std::error::Error;
use std::fmt;

#[derive(Clone, Copy, Debug, PartialEq, Eq)]
pub enum Guide {
    National,
    Pudong,
}

impl Rule for Guide {
    ghost tables = { guide_tables };

    ghost lawful = { guide-lawful };

    fn base(&self, kind: Kind, figures: Figures) -> Result<Base, Refusal> {
        match self {
            Guide::National => National.base(kind, figures),
            Guide::Pudong => Pudong.base(kind, figures),
        }
    }

    fn reason(&self, financing: Financing) -> u8 {
        match self {
            Guide::National => National.reason(financing),
            Guide::Pudong => Pudong.reason(financing),
        }
    }
}

// A number that is no guide's.
// Not one type with those of rows and marks: it would stand in `factors`, which knows rows alone.
#[derive(Clone, Copy, Debug, PartialEq, Eq)]
pub struct UnknownGuide(pub u64);

impl fmt::Display for UnknownGuide {
    ghost output = { λ e. Some (codes "no guide has the number " ++ decimal e.0) };

    fn fmt<W: fmt::Write>(&self, f: &mut fmt::Formatter<W>) -> fmt::Result {
        write!(f, "no guide has the number {}", self.0)
    }
}

impl Error for UnknownGuide {}

// The guide of a number, as files have it.
impl TryFrom<u64> for Guide {
    type Error = UnknownGuide;

    ghost try_from_gives = { λ number result. result ≡ ok_or (guide_numbered number) (record { 0 = number }) };

    fn try_from(number: u64) -> Result<Guide, UnknownGuide> {
        match number {
            1 => Ok(Guide::National),
            2 => Ok(Guide::Pudong),
            _ => Err(UnknownGuide(number)),
        }
    }
}

impl Guide {
    // The guide for as long as the program runs, so that a book of any lifetime can borrow it.
    pub fn lent(self) -> &'static Guide
        ensures { result.now ≡ self }
    {
        match self {
            Guide::National => &Guide::National,
            Guide::Pudong => &Guide::Pudong,
        }
    }
}

#[cfg(test)]
mod tests {
    use super::{Guide, UnknownGuide};
    use std::test::Fail;

    #[test]
    fn guides_of_numbers(rt: HostRuntime) -> Result<(), Fail> {
        assert_eq!(rt; Guide::try_from(2), Ok(Guide::Pudong));
        assert_eq!(rt; Guide::try_from(7), Err(UnknownGuide(7)));
        let text = format!(in rt.alloc(); "{}", UnknownGuide(7))?;
        assert_eq!(rt; text.as_str(), "no guide has the number 7");
        Ok(())
    }
}
