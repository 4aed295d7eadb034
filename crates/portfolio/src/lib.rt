// The portfolio file: any bytes read as a portfolio, or the line where they stop being one.
#![tactic(auto)]

ghost use Rattle.portfolio.specs.Worked.{WorkedStops};

pub mod file;
mod head;
pub mod layout;
mod section;
mod stops;
mod walk;

/// The definition of refused bytes gives small files the stops that their reader expects.
pub fn worked_stops()
    ensures { WorkedStops }
{}
