// Finding positions, and entering their balances, by the numbers that the plain book's changes are told by.
ghost use Rattle.std.specs.Prelude.{◌≡◌, [], ◌∷◌, ◌++◌, length, if◌then◌else◌, None, option_map, not, nat_le};
ghost use Rattle.plain.specs.Changes.{amended, posted};
ghost use Rattle.plain.specs.Limits.{most_positions};
ghost use Rattle.plain.specs.PlainBook.{is_of, position_of, new_position};
ghost use Rattle.plain.specs.Refused.{no_room_for};
ghost use Rattle.positions.specs.Entries.{balance_in, written, can_enter};
ghost use Rattle.positions.specs.Places.{first_place, change_at};
ghost use Rattle.positions.specs.Rows.{plain_position};
ghost use Rattle.positions.specs.View.{positions_in};
ghost use Rattle.positions.specs.Years.{in_year};

use crate::{PositionRow, Positions, in_year};
use arrayvec::ArrayVec;
use key_index::KeyIndex;
use plain::limits::full_of_positions;

impl Positions {
    /// A table without positions.
    pub fn new() -> Positions
        ensures { positions_in result ≡ [] }
    {
        Positions {
            rows: ArrayVec::new(),
            ids: KeyIndex::new(),
        }
    }

    // Where the position of a branch on the investee of an id stands: a row to change is lent by its place.
    fn place(&self, branch: u64, id: u64) -> Option<usize>
        ensures { result ≡ first_place (is_of branch id) (positions_in self.now) }
    {
        let mut next = self.ids.first(id);
        // A `while let`, since the place is wanted and not the row.
        while let Some(at) = next {
            if self.rows.as_slice()[at].is_of_branch(branch) {
                return Some(at);
            }
            next = self.ids.after(at);
        }
        None
    }

    // The position of a branch on the investee of an id.
    fn position(&self, branch: u64, id: u64) -> Option<PositionRow>
        ensures { option_map plain_position result ≡ position_of branch id (positions_in self.now) }
    {
        Some(self.rows.as_slice()[self.place(branch, id)?])
    }

    /// The balance of a month of a branch on the investee of an id, in wan, if it was posted.
    pub fn balance(&self, branch: u64, id: u64, month: u64) -> Option<u32>
        ensures { result ≡ (if in_year month then balance_in month (position_of branch id (positions_in self.now)) else None) }
    {
        self.position(branch, id)?.balance(month)
    }

    /// How many positions there are, 500 at most.
    pub fn len(&self) -> usize
        ensures { result ≡ length (positions_in self.now) }
    {
        self.rows.len()
    }

    /// Whether the position would be a new one, for which there is no room: it is looked for only in a full table.
    pub fn no_room_for(&self, branch: u64, id: u64) -> bool
        ensures { result ≡ no_room_for branch id (positions_in self.now) }
    {
        full_of_positions(self.len()) && self.place(branch, id).is_none()
    }

    // Adds a position with its first balance at the end, and says whether there was room for it.
    fn add(&mut self, branch: u8, id: u32, month: u64, balance: u32) -> bool
        ensures added { positions_in self.new ≡ (if result then positions_in self.old ++ written month balance (new_position branch id) ∷ [] else positions_in self.old) }
        ensures room { result ≡ not (nat_le most_positions (length (positions_in self.old))) }
    {
        if full_of_positions(self.len()) {
            return false;
        }
        let mut row = PositionRow::new(branch, id);
        row.write(month, balance);
        self.rows.push(row);
        // There is room: as many rows as ids are held.
        self.ids.push(u64::from(id)).unwrap();
        true
    }

    // Writes the balance of one month of the position at a place, and touches no other.
    fn write(&mut self, at: usize, month: u64, balance: u32)
        ensures { positions_in self.new ≡ change_at at (written month balance) (positions_in self.old) }
    {
        if let Some(row) = self.rows.get_mut(at) {
            row.write(month, balance);
        }
    }

    /// Enters the balance of a month, at a new position if there is none, and says whether it could: the year has the month,
    /// and there is a position or room for one. A bool, since nothing else is to say: a book asks before why it could not.
    pub fn enter(&mut self, branch: u8, id: u32, month: u64, balance: u32) -> bool
        ensures entered { result ≡ can_enter branch id month (positions_in self.old) }
        ensures positions { positions_in self.new ≡ (if result then posted branch id month balance (positions_in self.old) else positions_in self.old) }
    {
        if !in_year(month) {
            return false;
        }
        let Some(at) = self.place(u64::from(branch), u64::from(id)) else {
            return self.add(branch, id, month, balance);
        };
        self.write(at, month, balance);
        true
    }

    /// Replaces the balance of a month of a position, if there is one.
    pub fn replace(&mut self, branch: u8, id: u32, month: u64, balance: u32)
        ensures { positions_in self.new ≡ (if in_year month then amended branch id month balance (positions_in self.old) else positions_in self.old) }
    {
        if let Some(at) = self.place(u64::from(branch), u64::from(id)) {
            self.write(at, month, balance);
        }
    }
}
