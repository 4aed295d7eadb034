// An investee as a caller sends it, and as rules see it.
ghost use Rattle.std.specs.Prelude.{◌≡◌};
ghost use Rattle.rules.specs.Investees.{ProfileInRange, numbers_in_range, profile_of, financing_of, Checked};

use crate::figures::Figures;
use crate::kinds::{Kind, Size};
use faults::{Fault, Refusal};

// The largest id; the smallest is 1.
pub const LAST_ID: u64 = 4_294_967_295;

// Sectors 1 to 8 are the heavy-emitting ones, and 0 stands for every other.
pub const LAST_SECTOR: u64 = 8;

// The most days that a year can have.
pub const MOST_DAYS: u64 = 366;

/// The largest exposure to one investee in a year, in wan, and so its largest closing balance: no book lets either pass it.
pub const MOST_EXPOSURE: u64 = 9_000_000;

// The fields of an investee as a caller sends them: each number may be anything.
#[derive(Clone, Copy, Debug, PartialEq, Eq)]
pub struct InvesteeFields {
    pub id: u64,
    pub kind: u64,
    pub sector: u64,
    pub size: u64,
    pub days: u64,
    pub figures: Figures,
}

/// An investee with its numbers within their ranges: none has others. `InvesteeFields::checked` makes one, or refuses.
#[derive(Clone, Copy, Debug, PartialEq, Eq)]
pub struct Profile {
    /// From 1 to `LAST_ID`.
    pub id: u32,
    pub kind: Kind,
    /// From 0 to `LAST_SECTOR`: a number, since no guide tells sectors apart.
    pub sector: u8,
    pub size: Size,
    /// The days of the year that a project has run or a loan has been outstanding, at most `MOST_DAYS`.
    pub days: u16,
    /// Each at most `MOST_FIGURE`.
    pub figures: Figures,
    pub ghost in_range: { ProfileInRange (record { id = id; kind = kind; sector = sector; size = size; days = days; figures = figures }) },
}

// How an investee is financed: for what, of which size it is, for how many days, with what exposure over the year and
// what closing balance. Rules decide by it whether they count the investee.
#[derive(Clone, Copy, Debug, PartialEq, Eq)]
pub struct Financing {
    pub kind: Kind,
    pub size: Size,
    pub days: u64,
    pub exposure: u64,
    pub closing: u64,
}

impl InvesteeFields {
    ghost use Rattle.rules.specs.Seen.{seen_profile};

    // Whether the fields that are no kind and no size are within their ranges.
    fn numbers_in_range(self) -> bool
        ensures { result ≡ numbers_in_range self }
    {
        (1..=LAST_ID).contains(&self.id)
            && self.sector <= LAST_SECTOR
            && self.days <= MOST_DAYS
            && self.figures.within_limits()
    }

    /// The investee that the fields describe. A field outside its range is `FieldOutOfRange` (12), with place 0 and source 0.
    pub fn checked(self) -> Result<Profile, Fault>
        ensures value { seen_profile result ≡ profile_of self }
        ensures ranges { Checked self (seen_profile result) }
    {
        let kind = Kind::try_from(self.kind)?;
        let size = Size::try_from(self.size)?;
        if !self.numbers_in_range() {
            return Err(Fault::plain(Refusal::FieldOutOfRange));
        }
        // By `as`: the ranges were tested above.
        Ok(Profile {
            id: self.id as u32,
            kind,
            sector: self.sector as u8,
            size,
            days: self.days as u16,
            figures: self.figures,
        })
    }
}

impl Profile {
    ghost use Rattle.rules.specs.Seen.{plain_profile};

    /// How it is financed, by its exposure over the year and its closing balance, in wan.
    pub fn financed(self, exposure: u64, closing: u64) -> Financing
        ensures { result ≡ financing_of (plain_profile self) exposure closing }
    {
        Financing {
            kind: self.kind,
            size: self.size,
            days: u64::from(self.days),
            exposure,
            closing,
        }
    }
}
