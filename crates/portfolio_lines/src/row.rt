// A line of numbers.
ghost use Rattle.std.specs.Prelude.{◌≡◌, ◌^◌, ◌<◌};
ghost use Rattle.lines.specs.Places.{FieldsOfNumbers};
ghost use Rattle.portfolio_lines.specs.Lines.{number_line};
ghost use Rattle.portfolio_lines.specs.Places.{RefusesWrongLines};
ghost use Rattle.portfolio_lines.specs.Rows.{last_place, misread_of};
ghost use Rattle.portfolio_lines.specs.Text.{ReadsRows};

use crate::misread::Misread;
use lines::fields::LineError;
use lines::line::number_line;

// Why a line is not read that should have so many numbers.
fn misread(error: LineError, count: usize) -> Misread
    requires { last_place count error < 2 ^ 32 }
    ensures { result ≡ misread_of count error }
{
    match error {
        LineError::TooLong => Misread::TooLong,
        LineError::Field(i) => Misread::Field(i as u32 + 1),
        LineError::Surplus => Misread::Field(count as u32 + 1),
    }
}

/// The K numbers of a line, which is given without its line feed.
pub fn read_row<const K: usize>(line: &[u8]) -> Result<[u64; K], Misread>
    ensures value { result ≡ number_line K line.now }
    ensures lines { 0 < K → ReadsRows K line.now result }
    ensures refuses { RefusesWrongLines (FieldsOfNumbers K) line.now result }
{
    // A `match` and no `map_err`: that the place fits is known of this error, and not of each that a closure may get.
    match number_line::<K>(line) {
        Ok(ns) => Ok(ns),
        Err(error) => Err(misread(error, K)),
    }
}
