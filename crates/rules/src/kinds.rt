// What is financed, and how large the investee is.
ghost use Rattle.std.specs.Prelude.{◌≡◌, Some};
ghost use Rattle.std.specs.Option.{ok_or};
ghost use Rattle.faults.specs.Refusals.{fault};
ghost use Rattle.faults.specs.declared.Refusal.TheVariants.{FieldOutOfRange};
ghost use Rattle.rules.specs.Kinds.{kind_number, kind_numbered, size_number, size_numbered};

use faults::{Fault, Refusal};

// A number that is no kind's or no size's.
// Not one type with those of rows, marks and guides: only this one becomes a fault, of a field out of range.
#[derive(Clone, Copy, Debug, PartialEq, Eq)]
pub struct UnknownNumber(pub u64);

// A field whose number names nothing is out of its range.
impl From<UnknownNumber> for Fault {
    ghost from_gives = { λ _ f. f ≡ fault FieldOutOfRange 0 0 };

    fn from(_number: UnknownNumber) -> Fault {
        Fault::plain(Refusal::FieldOutOfRange)
    }
}

// What the money is lent for, or how.
#[derive(Clone, Copy, Debug, PartialEq, Eq)]
pub enum Kind {
    Project = 1,
    PropertyDevelopment = 2,
    PropertyPurchase = 3,
    Vehicle = 4,
    GeneralLoan = 5,
    Bond = 6,
}

// The number that files and reports have for a kind.
impl From<Kind> for u8 {
    ghost from_gives = { λ kind n. (n ≡ kind_number kind) × (kind_numbered n ≡ Some kind) };

    fn from(kind: Kind) -> u8 {
        kind as u8
    }
}

// The kind of a number from 1 to 6.
impl TryFrom<u64> for Kind {
    type Error = UnknownNumber;

    ghost try_from_gives = { λ number result. result ≡ ok_or (kind_numbered number) (record { 0 = number }) };

    fn try_from(number: u64) -> Result<Kind, UnknownNumber> {
        match number {
            1 => Ok(Kind::Project),
            2 => Ok(Kind::PropertyDevelopment),
            3 => Ok(Kind::PropertyPurchase),
            4 => Ok(Kind::Vehicle),
            5 => Ok(Kind::GeneralLoan),
            6 => Ok(Kind::Bond),
            _ => Err(UnknownNumber(number)),
        }
    }
}

// A person stands for household businesses too.
#[derive(Clone, Copy, Debug, PartialEq, Eq)]
pub enum Size {
    Large = 1,
    Medium = 2,
    Small = 3,
    Micro = 4,
    Person = 5,
}

// The number that files have for a size.
impl From<Size> for u8 {
    ghost from_gives = { λ size n. (n ≡ size_number size) × (size_numbered n ≡ Some size) };

    fn from(size: Size) -> u8 {
        size as u8
    }
}

// The size of a number from 1 to 5.
impl TryFrom<u64> for Size {
    type Error = UnknownNumber;

    ghost try_from_gives = { λ number result. result ≡ ok_or (size_numbered number) (record { 0 = number }) };

    fn try_from(number: u64) -> Result<Size, UnknownNumber> {
        match number {
            1 => Ok(Size::Large),
            2 => Ok(Size::Medium),
            3 => Ok(Size::Small),
            4 => Ok(Size::Micro),
            5 => Ok(Size::Person),
            _ => Err(UnknownNumber(number)),
        }
    }
}
