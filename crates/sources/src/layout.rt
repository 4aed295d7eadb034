// How what a source reads is printed.
ghost use Rattle.std.specs.Prelude.{Some};
ghost use Rattle.sources.specs.Layout.{line_of};

use crate::reading::Reading;
use faults::Fault;
use std::fmt;

/// What a source reads, with a label: it prints a line such as `report: 1000 kg, grade 1` or
/// `bill: refusal 1, place 2, source 2`, without a line feed.
#[derive(Clone, Copy)]
pub struct Labelled<'a> {
    pub label: &'a str,
    pub outcome: Result<Reading, Fault>,
}

impl fmt::Display for Labelled<'_> {
    ghost output = { λ l. Some (line_of l.label.now l.outcome) };

    fn fmt<W: fmt::Write>(&self, f: &mut fmt::Formatter<W>) -> fmt::Result {
        let label = self.label;
        match self.outcome {
            Ok(reading) => write!(f, "{label}: {reading}"),
            Err(fault) => write!(f, "{label}: {fault}"),
        }
    }
}
