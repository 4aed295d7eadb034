// The rows that a book keeps of its investees.
ghost use Rattle.std.specs.Prelude.{◌≡◌};
ghost use Rattle.plain.specs.Changes.{opened, restated, reduced_by};
ghost use Rattle.plain.specs.PlainBook.{has_id};
ghost use Rattle.rules.specs.Seen.{plain_profile};
ghost use Rattle.book.specs.Rows.{plain_investee};

use rules::figures::Figures;
use rules::investees::Profile;
use rules::kinds::{Kind, Size};
use sources::reading::Reading;

// An investee with its last reading, and its reduction once one is set.
#[derive(Clone, Copy, Debug)]
pub struct InvesteeRow {
    pub profile: Profile,
    pub reading: Reading,
    pub reduction: Option<i64>,
}

// What fills the places of a table that have no investee yet. Nothing reads it. Numbers of 0, as far as a profile may have
// them, since such rows are filled in fastest.
impl Default for InvesteeRow {
    fn default() -> InvesteeRow {
        let profile = Profile {
            id: 1,
            kind: Kind::Project,
            sector: 0,
            size: Size::Large,
            days: 0,
            figures: Figures::default(),
        };
        let reading = Reading {
            kilograms: 0,
            grade: 0,
        };
        InvesteeRow::opened(profile, reading)
    }
}

impl InvesteeRow {
    // An investee with its first reading.
    pub(crate) fn opened(profile: Profile, first: Reading) -> InvesteeRow
        ensures { plain_investee result ≡ opened (plain_profile profile) first }
    {
        InvesteeRow {
            profile,
            reading: first,
            reduction: None,
        }
    }

    // The investee with another reading of its emissions.
    pub(crate) fn restated(self, reading: Reading) -> InvesteeRow
        ensures { plain_investee result ≡ restated reading (plain_investee self) }
    {
        InvesteeRow { reading, ..self }
    }

    // The investee with a reduction set. Its grade stays that of its emissions.
    pub(crate) fn reduced_by(self, reading: Reading) -> InvesteeRow
        ensures { plain_investee result ≡ reduced_by reading (plain_investee self) }
    {
        InvesteeRow {
            reduction: Some(reading.kilograms),
            ..self
        }
    }

    pub(crate) fn has_id(self, id: u64) -> bool
        ensures { result ≡ has_id id (plain_investee self) }
    {
        u64::from(self.profile.id) == id
    }
}
