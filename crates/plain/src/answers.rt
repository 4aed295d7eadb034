// What a book answers to its calls, and how it is printed.
ghost use Rattle.std.specs.Prelude.{◌≡◌, Some};
ghost use Rattle.plain.specs.Layout.{kilograms_text, total_text, subtotal_text, book_total_text, answer_text};
ghost use Rattle.plain.specs.Told.{told, done};

use faults::Fault;
use grading::hundredths::Hundredths;
use std::fmt;

// Kilograms of CO2 equivalent of both measures. Reductions may be below zero.
#[derive(Clone, Copy, Debug, Default, PartialEq, Eq)]
pub struct Kilograms {
    pub emissions: i64,
    pub reductions: i64,
}

// What falls to the branches for one investee: the reason for which the rule leaves it out, or 0, and the grade of its reading.
#[derive(Clone, Copy, Debug, PartialEq, Eq)]
pub struct InvesteeTotal {
    pub kilograms: Kilograms,
    // As pages print it; 0 where it is counted.
    pub reason: u8,
    pub grade: u8,
}

// An investee by its id, with what falls to the branches for it.
#[derive(Clone, Copy, Debug, PartialEq, Eq)]
pub struct InvesteeAccount {
    pub id: u32,
    pub total: InvesteeTotal,
}

// What falls to all branches for some of the investees, and the share of those investees' positions that it covers, in
// hundredths of a percent: nothing where there are no positions. Reductions cover a position if one has been set.
#[derive(Clone, Copy, Debug, PartialEq, Eq)]
pub struct Subtotal {
    pub kilograms: Kilograms,
    pub emissions_cover: Option<u32>,
    pub reductions_cover: Option<u32>,
}

// The book total: for projects, for the rest and for all, and one mean grade, in hundredths, over all counted investees.
#[derive(Clone, Copy, Debug, PartialEq, Eq)]
pub struct BookTotal {
    pub projects: Subtotal,
    pub rest: Subtotal,
    pub all: Subtotal,
    pub mean_grade: Option<u32>,
}

// The answer to one call.
#[derive(Clone, Copy, Debug, PartialEq, Eq)]
pub enum Answer {
    Done,
    Declined(Fault),
    Part(Kilograms),
    Total(InvesteeTotal),
    Sheet(Kilograms),
    Book(BookTotal),
}

// What a call that changes the book answers.
impl From<Result<(), Fault>> for Answer {
    ghost from_gives = { λ outcome answer. answer ≡ told done outcome };

    fn from(outcome: Result<(), Fault>) -> Answer {
        match outcome {
            Ok(()) => Answer::Done,
            Err(fault) => Answer::Declined(fault),
        }
    }
}

impl fmt::Display for Kilograms {
    ghost output = { λ k. Some (kilograms_text k) };

    fn fmt<W: fmt::Write>(&self, f: &mut fmt::Formatter<W>) -> fmt::Result {
        write!(f, "{} kg, reduction {} kg", self.emissions, self.reductions)
    }
}

impl fmt::Display for InvesteeTotal {
    ghost output = { λ t. Some (total_text t) };

    fn fmt<W: fmt::Write>(&self, f: &mut fmt::Formatter<W>) -> fmt::Result {
        write!(
            f,
            "{}, reason {}, grade {}",
            self.kilograms, self.reason, self.grade
        )
    }
}

// With the shares of the positions that are covered, in percent.
impl fmt::Display for Subtotal {
    ghost output = { λ s. Some (subtotal_text s) };

    fn fmt<W: fmt::Write>(&self, f: &mut fmt::Formatter<W>) -> fmt::Result {
        let emissions = Hundredths(self.emissions_cover);
        let reductions = Hundredths(self.reductions_cover);
        write!(
            f,
            "{}, covered {emissions} and {reductions}",
            self.kilograms
        )
    }
}

// In one line.
impl fmt::Display for BookTotal {
    ghost output = { λ b. Some (book_total_text b) };

    fn fmt<W: fmt::Write>(&self, f: &mut fmt::Formatter<W>) -> fmt::Result {
        let grade = Hundredths(self.mean_grade);
        write!(
            f,
            "projects {}; rest {}; all {}; mean grade {grade}",
            self.projects, self.rest, self.all
        )
    }
}

impl fmt::Display for Answer {
    ghost output = { λ a. Some (answer_text a) };

    fn fmt<W: fmt::Write>(&self, f: &mut fmt::Formatter<W>) -> fmt::Result {
        match self {
            Answer::Done => write!(f, "done"),
            Answer::Declined(fault) => write!(f, "{fault}"),
            Answer::Part(kilograms) => write!(f, "{kilograms}"),
            Answer::Total(total) => write!(f, "{total}"),
            Answer::Sheet(kilograms) => write!(f, "{kilograms}"),
            Answer::Book(total) => write!(f, "{total}"),
        }
    }
}
