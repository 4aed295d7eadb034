// Going over the positions on one investee, by the index of the ids.
ghost use Rattle.std.specs.Prelude.{◌≡◌, ◌≤◌, length};
ghost use Rattle.plain.specs.Limits.{most_positions};
ghost use Rattle.positions.specs.Rows.{rows_on};
ghost use Rattle.positions.specs.RowsOn.{rows_left};

use crate::{PositionRow, Positions};

// The rows on one investee that are still to come, in the order of the first posts.
#[derive(Clone, Copy)]
pub(crate) struct RowsOn<'p> {
    table: &'p Positions,
    next: Option<usize>,
}

impl<'p> Iterator for RowsOn<'p> {
    ghost use Rattle.std.specs.Iterator.{item_count, YieldsFirstRef};
    ghost use Rattle.positions.specs.RowsOn.{rows_left};

    type Item = &'p PositionRow;

    ghost next_gives = { YieldsFirstRef rows_left };

    ghost remaining = { item_count rows_left };

    fn next(&mut self) -> Option<&'p PositionRow> {
        let at = self.next?;
        self.next = self.table.ids.after(at);
        self.table.rows.as_slice().get(at)
    }
}

impl Positions {
    // The rows on the investee of an id.
    pub(crate) fn on(&self, id: u32) -> RowsOn<'_>
        ensures rows { rows_left result ≡ rows_on id self.now.rows.items }
        ensures few { length (rows_left result) ≤ most_positions }
    {
        RowsOn {
            table: self,
            next: self.ids.first(u64::from(id)),
        }
    }
}
