// A line of numbers.
ghost use Rattle.std.specs.Prelude.{◌≡◌, ◌<◌};
ghost use Rattle.lines.specs.Fields.{line_of};
ghost use Rattle.lines.specs.Places.{RefusesWrongNumberLines};
ghost use Rattle.lines.specs.Render.{AcceptsWhatIsPrinted};

use crate::fields::{LineError, numbers};
use crate::pieces::Pieces;

/// The most bytes of a line, without its line feed.
pub const MOST_BYTES: usize = 511;

/// The K numbers of a line, which is given without its line feed. It is refused if it is too long, and else at its first
/// field that is wrong, missing or surplus.
pub fn number_line<const K: usize>(line: &[u8]) -> Result<[u64; K], LineError>
    ensures value { result ≡ line_of K line.now }
    ensures accepts { 0 < K → AcceptsWhatIsPrinted K line.now result }
    ensures refuses { RefusesWrongNumberLines K line.now result }
{
    if line.len() > MOST_BYTES {
        return Err(LineError::TooLong);
    }
    let mut fields = Pieces::new(line, b' ');
    let ns = numbers::<K>(&mut fields)?;
    if fields.next().is_some() {
        return Err(LineError::Surplus);
    }
    Ok(ns)
}
