// Finding an investee, and what was lent to it.
ghost use Rattle.std.specs.Prelude.{◌≡◌, ok_or, position};
ghost use Rattle.faults.specs.Refusals.{fault};
ghost use Rattle.faults.specs.declared.Refusal.TheVariants.{NotOpen};
ghost use Rattle.plain.specs.Exposures.{exposure_to};
ghost use Rattle.plain.specs.PlainBook.{has_id, investee_of, is_open};
ghost use Rattle.book.specs.Entries.{plain_result};
ghost use Rattle.book.specs.Rows.{plain_investee};
ghost use Rattle.book.specs.View.{plain};

use crate::book::Book;
use crate::rows::InvesteeRow;
use faults::{Fault, Refusal};
use rules::rule::Rule;

impl<'r, R: Rule> Book<'r, R> {
    // Where the investee of an id stands, which has to be open.
    pub(super) fn place(&self, id: u64) -> Result<usize, Fault>
        ensures { result ≡ ok_or (position (has_id id) (plain self.now).investees) (fault NotOpen 0 0) }
    {
        self.investees
            .as_slice()
            .iter()
            .position(|row| row.has_id(id))
            .ok_or(Fault::plain(Refusal::NotOpen))
    }

    // The investee of an id, which has to be open.
    pub(super) fn investee(&self, id: u64) -> Result<InvesteeRow, Fault>
        ensures { plain_result result ≡ ok_or (investee_of id (plain self.now)) (fault NotOpen 0 0) }
    {
        self.investees
            .as_slice()
            .iter()
            .find(|row| row.has_id(id))
            .copied()
            .ok_or(Fault::plain(Refusal::NotOpen))
    }

    // Whether an investee of an id is open.
    pub(super) fn is_open(&self, id: u64) -> bool
        ensures { result ≡ is_open id (plain self.now) }
    {
        self.place(id).is_ok()
    }

    // The exposure to an investee.
    pub(super) fn exposure(&self, row: InvesteeRow) -> u64
        ensures { result ≡ exposure_to (plain_investee row) (plain self.now).positions }
    {
        self.positions.exposure(row.profile.kind, row.profile.id)
    }
}
