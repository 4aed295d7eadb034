// Opening investees.
ghost use Rattle.std.specs.Prelude.{◌≡◌, length, nat_le};
ghost use Rattle.plain.specs.Limits.{most_investees};
ghost use Rattle.plain.specs.EachCall.{OneCall};
ghost use Rattle.plain.specs.Runs.{after, answer};
ghost use Rattle.plain.specs.Steps.{enter};
ghost use Rattle.rules.specs.Seen.{seen_profile};
ghost use Rattle.book.specs.Openings.{emissions_in, taken_by};
ghost use Rattle.plain.specs.Told.{told, done};
ghost use Rattle.book.specs.View.{plain};

use crate::book::Book;
use crate::rows::InvesteeRow;
use faults::{Fault, Refusal};
use plain::limits::full_of_investees;
use rules::investees::{InvesteeFields, Profile};
use rules::rule::Rule;
use sources::reading::Reading;
use sources::source::Source;

// The reading of a source as emissions, which are not below zero.
pub(super) fn emissions<S: Source>(source: &S) -> Result<Reading, Fault>
    ensures { result ≡ emissions_in (S.meaning source.now) }
{
    let reading = source.read()?;
    if reading.kilograms < 0 {
        return Err(Fault::plain(Refusal::ReadingBelowZero));
    }
    Ok(reading)
}

impl<'r, R: Rule> Book<'r, R> {
    // Whether there is no room for another investee.
    fn is_full(&self) -> bool
        ensures { result ≡ nat_le most_investees (length (plain self.now).investees) }
    {
        full_of_investees(self.investees.len())
    }

    // The investee that the fields describe, if the book and its rule take it.
    fn taken(&self, fields: InvesteeFields) -> Result<Profile, Fault>
        ensures { seen_profile result ≡ taken_by (R.tables self.now.rule.now) (plain self.now) fields }
    {
        let profile = fields.checked()?;
        if self.is_open(u64::from(profile.id)) {
            return Err(Fault::plain(Refusal::AlreadyOpen));
        }
        if self.is_full() {
            return Err(Fault::plain(Refusal::InvesteesFull));
        }
        self.rule.base(profile.kind, profile.figures)?;
        Ok(profile)
    }

    /// Enters an investee with a reading of its emissions, in kilograms, and without a reduction.
    ///
    /// An id is from 1 to 4,294,967,295, a kind from 1 to 6, a sector from 0 to 8, a size from 1 to 5, days are at most 366, and
    /// each of the four figures is at most 500,000,000 wan.
    ///
    /// Refusals, in their order: 12, a field is out of its range; 14, the id is open; 15, 200 investees are held; the rule's 10
    /// or 11; the source's own fault; 13, the reading is below 0.
    pub fn open<S: Source>(&mut self, fields: InvesteeFields, source: &S) -> Result<(), Fault>
        ensures book { plain self.new ≡ after (R.tables self.old.rule.now) (plain self.old) (enter fields (S.meaning source.now)) }
        ensures rule { self.new.rule ≡ self.old.rule }
        ensures told { told done result ≡ answer (R.tables self.old.rule.now) (plain self.old) (enter fields (S.meaning source.now)) }
        ensures one_call { OneCall (R.tables self.old.rule.now) (plain self.old) (enter fields (S.meaning source.now)) (told done result) (plain self.new) }
    {
        let profile = self.taken(fields)?;
        let reading = emissions(source)?;
        // There is room: `taken` asked.
        self.investees.push(InvesteeRow::opened(profile, reading));
        Ok(())
    }
}
