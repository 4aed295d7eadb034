// Where a layout stops.
ghost use Rattle.std.specs.Prelude.{◌≡◌};
ghost use Rattle.portfolio_lines.specs.Misreads.{place_of};
ghost use Rattle.portfolio.specs.Files.{missing, not_laid_out, beyond_limits};

use crate::head::HEAD_LINE;
use entries::stop::Stop;
use faults::{Fault, Refusal};
use portfolio_lines::misread::Misread;

// A line is missing or not ended, or bytes stand where none may.
pub fn line_missing(line: usize) -> Stop
    ensures { result ≡ missing line }
{
    Stop::at(line, Fault::plain(Refusal::LineMissing))
}

// A line is not as laid out.
pub fn wrong_field(line: usize, misread: Misread) -> Stop
    ensures { result ≡ not_laid_out line (place_of misread) }
{
    Stop::at(line, Fault::at(Refusal::FieldNotAsLaidOut, misread.place()))
}

// The file or its first line is beyond the limits.
pub fn file_beyond() -> Stop
    ensures { result ≡ beyond_limits }
{
    Stop::at(HEAD_LINE, Fault::plain(Refusal::FileBeyondLimits))
}
