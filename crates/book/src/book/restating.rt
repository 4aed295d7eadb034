// Other readings for investees that are open, by two calls: each takes readings of its own, and writes a field of its own.
ghost use Rattle.std.specs.Prelude.{◌≡◌};
ghost use Rattle.plain.specs.EachCall.{OneCall};
ghost use Rattle.plain.specs.Runs.{after, answer};
ghost use Rattle.plain.specs.Steps.{restate, reduce};
ghost use Rattle.plain.specs.Told.{told, done};
ghost use Rattle.book.specs.View.{plain};

use crate::book::Book;
use crate::book::opening::emissions;
use faults::Fault;
use rules::rule::Rule;
use sources::source::Source;

impl<'r, R: Rule> Book<'r, R> {
    /// Replaces the emissions, in kilograms, and the grade of an investee by another reading. Its reduction stays.
    ///
    /// Refusals, in their order: 16, the id is not open; the source's own fault; 13, the reading is below 0.
    pub fn restate<S: Source>(&mut self, id: u64, source: &S) -> Result<(), Fault>
        ensures book { plain self.new ≡ after (R.tables self.old.rule.now) (plain self.old) (restate id (S.meaning source.now)) }
        ensures rule { self.new.rule ≡ self.old.rule }
        ensures told { told done result ≡ answer (R.tables self.old.rule.now) (plain self.old) (restate id (S.meaning source.now)) }
        ensures one_call { OneCall (R.tables self.old.rule.now) (plain self.old) (restate id (S.meaning source.now)) (told done result) (plain self.new) }
    {
        let at = self.place(id)?;
        let reading = emissions(source)?;
        // `place` found it, so there is a row.
        if let Some(row) = self.investees.get_mut(at) {
            *row = row.restated(reading);
        }
        Ok(())
    }

    /// Sets the reduction of an investee, in kilograms, which may be below zero. Its grade stays that of its emissions.
    ///
    /// Refusals, in their order: 16, the id is not open; the source's own fault.
    pub fn reduce<S: Source>(&mut self, id: u64, source: &S) -> Result<(), Fault>
        ensures book { plain self.new ≡ after (R.tables self.old.rule.now) (plain self.old) (reduce id (S.meaning source.now)) }
        ensures rule { self.new.rule ≡ self.old.rule }
        ensures told { told done result ≡ answer (R.tables self.old.rule.now) (plain self.old) (reduce id (S.meaning source.now)) }
        ensures one_call { OneCall (R.tables self.old.rule.now) (plain self.old) (reduce id (S.meaning source.now)) (told done result) (plain self.new) }
    {
        let at = self.place(id)?;
        let reading = source.read()?;
        // `place` found it, so there is a row.
        if let Some(row) = self.investees.get_mut(at) {
            *row = row.reduced_by(reading);
        }
        Ok(())
    }
}
