// The fields of a line that are still to read.
ghost use Rattle.std.specs.Prelude.{◌+◌, ◌≤◌, length};
ghost use Rattle.lines.specs.Fields.{pieces_left};

use lines::pieces::Pieces;

// The fields that are still to read, and the place of the next, counted from 1. A line has at most 512 fields.
// Counted by hand: `lines::fields::numbers` reads several numbers at once from the pieces.
#[derive(Clone, Copy)]
pub struct Fields<'a> {
    pub pieces: Pieces<'a>,
    pub place: u32,
    ghost countable: { place + length (pieces_left pieces.separator pieces.rest) ≤ 513 },
}
