// Where a file stops.
ghost use Rattle.std.specs.Prelude.{◌≡◌};
ghost use Rattle.entries.specs.Stops.{stop_at};

use faults::Fault;

// A line, counted from 1, and what was found there.
#[derive(Clone, Copy, Debug, PartialEq, Eq)]
pub struct Stop {
    pub line: usize,
    pub fault: Fault,
}

impl Stop {
    pub fn at(line: usize, fault: Fault) -> Stop
        ensures { result ≡ stop_at line fault }
    {
        Stop { line, fault }
    }
}
