// What the positions say of one investee.
ghost use Rattle.std.specs.Prelude.{◌≡◌, map, length, None};
ghost use Rattle.plain.specs.Branches.{branch_count};
ghost use Rattle.plain.specs.Exposures.{lent_by, positions_on};
ghost use Rattle.plain.specs.Parts.{exposures};
ghost use Rattle.positions.specs.Lending.{lending_of, turn_of, turns_of, noted, branch_in};
ghost use Rattle.positions.specs.View.{positions_in};

use crate::Positions;
use plain::limits::{BRANCH_ROWS, branch_out_of_range};
use rules::kinds::Kind;

// What all branches have lent to an investee: their positions, their exposures and their closing balances, added up.
#[derive(Clone, Copy, Default)]
pub struct Lending {
    pub positions: u64,
    pub exposure: u64,
    pub closing: u64,
}

// The turn of one branch among those that have lent to an investee: the exposures before it, added up, and its own.
#[derive(Clone, Copy)]
pub struct Turn {
    pub before: u64,
    pub exposure: u64,
}

// Writes the turn of a branch at its place, unless there is one. A byte holds more than branches, and a table takes any.
fn note(turns: &mut [Option<Turn>], branch: u8, turn: Turn)
    requires { length turns.old ≡ branch_count }
    ensures { turns.new ≡ noted branch turn turns.old }
{
    if !branch_out_of_range(u64::from(branch)) {
        let at = usize::from(branch) - 1;
        turns[at].get_or_insert(turn);
    }
}

impl Positions {
    // The exposures to an investee, added up, without the other sums: it is asked at each post.
    pub fn exposure(&self, kind: Kind, id: u32) -> u64
        ensures { result ≡ exposures (map (lent_by kind) (positions_on id (positions_in self.now))) }
    {
        self.on(id).map(|row| row.exposure(kind)).sum()
    }

    // What was lent to an investee.
    pub fn lending(&self, kind: Kind, id: u32) -> Lending
        ensures { result ≡ lending_of kind id (positions_in self.now) }
    {
        let mut lending = Lending::default();
        // One pass for three sums.
        for row in self.on(id) {
            lending.positions += 1;
            lending.exposure += row.exposure(kind);
            lending.closing += row.closing();
        }
        lending
    }

    // The turn of a branch among those that have lent to an investee.
    pub fn turn(&self, kind: Kind, id: u32, branch: u64) -> Turn
        ensures { result ≡ turn_of kind id branch (positions_in self.now) }
    {
        let mut before = 0;
        // A `for`: it adds up until it finds the branch, and gives both.
        for row in self.on(id) {
            let exposure = row.exposure(kind);
            if row.is_of_branch(branch) {
                return Turn { before, exposure };
            }
            before += exposure;
        }
        Turn {
            before,
            exposure: 0,
        }
    }

    // The turns of all branches, from branch 1 on, in one walk: None for a branch that has not lent to the investee.
    pub fn turns(&self, kind: Kind, id: u32) -> [Option<Turn>; BRANCH_ROWS]
        ensures { result ≡ turns_of kind id (positions_in self.now) }
    {
        let mut turns = [None; BRANCH_ROWS];
        let mut before = 0;
        // A `for`: each turn needs the sum of the exposures before it.
        for row in self.on(id) {
            let exposure = row.exposure(kind);
            note(&mut turns, row.branch, Turn { before, exposure });
            before += exposure;
        }
        turns
    }

    // Whether a branch has lent to some investee.
    pub fn has_branch(&self, branch: u64) -> bool
        ensures { result ≡ branch_in branch (positions_in self.now) }
    {
        self.rows
            .as_slice()
            .iter()
            .any(|row| row.is_of_branch(branch))
    }
}
