// What the investees of a book add to its totals, line by line.
ghost use Rattle.std.specs.Prelude.{◌≡◌, ◌*◌, ◌≤◌, length};
ghost use Rattle.std.specs.List.{AllByRecursion};
ghost use Rattle.plain.specs.Limits.{most_investees, most_positions};
ghost use Rattle.plain.specs.Readings.{project_kind, hundredths};
ghost use Rattle.plain.specs.Exposures.{emissions as of_emissions, reductions as of_reductions};
ghost use Rattle.book.specs.Lines.{weight_of, grade_of, covered, takes, taken, plus_line, sums_of, subtotal_from, book_total_from, LineWithinLimits, AtMostLines};

use crate::book::readings::added;
use grading::{Graded, mean};
use plain::answers::{BookTotal, Kilograms, Subtotal};
use plain::limits::MOST_EXPOSURE;
use rules::kinds::Kind;

mod totals;

// One investee: what falls to all branches, and how many positions there are on it, with what tells whether it is counted.
// Three flags: any of them may be set without the others.
#[derive(Clone, Copy, Default)]
struct Line {
    project: bool,
    kilograms: Kilograms,
    positions: u64,
    counted: bool,
    reduced: bool,
    exposure: u64,
    grade: u8,
}

// Counted investees weigh as much as their exposures, and the others nothing. The limits are those that every book keeps to.
impl Graded for Line {
    ghost weight = { weight_of };

    ghost grade = { grade_of };

    fn weight(&self) -> u64 {
        if self.counted {
            self.exposure.min(MOST_EXPOSURE)
        } else {
            0
        }
    }

    fn grade(&self) -> u64 {
        u64::from(self.grade).min(5)
    }
}

// The investees that a subtotal is of: an enum and no closure, so that the definitions can name a group.
#[derive(Clone, Copy)]
enum Group {
    Projects,
    Rest,
    All,
}

// The lines of a group added up: kilograms, positions, and how many of these emissions and reductions cover.
#[derive(Clone, Copy, Default)]
struct Sums {
    kilograms: Kilograms,
    positions: u64,
    counted: u64,
    reduced: u64,
}

fn is_project(kind: Kind) -> bool
    ensures { result ≡ project_kind kind }
{
    kind == Kind::Project
}

// So many of all in hundredths of a percent, toward zero; nothing where there are none.
fn hundredths(some: u64, all: u64) -> Option<u32>
    requires { some ≤ most_investees * most_positions }
    ensures { result ≡ hundredths some all }
{
    if all == 0 {
        return None;
    }
    Some((10_000 * some / all) as u32)
}

impl Line {
    // Its positions, if a reading of emissions covers them.
    fn counted_positions(self) -> u64
        ensures { result ≡ covered of_emissions self }
    {
        if self.counted { self.positions } else { 0 }
    }

    // Its positions, if a reading of reductions covers them.
    fn reduced_positions(self) -> u64
        ensures { result ≡ covered of_reductions self }
    {
        if self.counted && self.reduced {
            self.positions
        } else {
            0
        }
    }
}

impl Group {
    fn takes(self, line: Line) -> bool
        ensures { result ≡ takes self line }
    {
        match self {
            Group::Projects => line.project,
            Group::Rest => !line.project,
            Group::All => true,
        }
    }

    // The line, or one that adds nothing where the group leaves it out.
    fn taken(self, line: Line) -> Line
        ensures { result ≡ taken self line }
    {
        if self.takes(line) {
            line
        } else {
            Line::default()
        }
    }
}

impl Sums {
    // With the figures of one line more.
    fn plus(self, line: Line) -> Sums
        requires { AtMostLines most_investees self × LineWithinLimits line }
        ensures { result ≡ plus_line self line }
    {
        Sums {
            kilograms: added(self.kilograms, line.kilograms),
            positions: self.positions + line.positions,
            counted: self.counted + line.counted_positions(),
            reduced: self.reduced + line.reduced_positions(),
        }
    }

    // What they say of their group: its kilograms, and how many of its positions these cover.
    fn subtotal(self) -> Subtotal
        requires { AtMostLines most_investees self }
        ensures { result ≡ subtotal_from self }
    {
        Subtotal {
            kilograms: self.kilograms,
            emissions_cover: hundredths(self.counted, self.positions),
            reductions_cover: hundredths(self.reduced, self.positions),
        }
    }
}

// The lines of a book, as many as it has investees.
#[derive(Drop)]
struct Lines<'l> {
    lines: &'l [Line],
    ghost few: { length lines.now ≤ most_investees },
    ghost within: { ∥ AllByRecursion LineWithinLimits lines.now ∥₁ },
}

impl<'l> Lines<'l> {
    // Those of a group, added up.
    fn sums(&self, group: Group) -> Sums
        ensures { result ≡ sums_of group self.now.lines.now }
    {
        let mut sums = Sums::default();
        // A `for` and no fold: the bound on each sum so far is the loop's invariant.
        for line in self.lines {
            sums = sums.plus(group.taken(*line));
        }
        sums
    }

    // What falls to all branches for a group.
    fn subtotal(&self, group: Group) -> Subtotal
        ensures { result ≡ subtotal_from (sums_of group self.now.lines.now) }
    {
        self.sums(group).subtotal()
    }

    // The book total: for projects, for the rest and for all, with one mean grade.
    fn total(&self) -> BookTotal
        ensures { result ≡ book_total_from self.now.lines.now }
    {
        BookTotal {
            projects: self.subtotal(Group::Projects),
            rest: self.subtotal(Group::Rest),
            all: self.subtotal(Group::All),
            mean_grade: mean(self.lines),
        }
    }
}
