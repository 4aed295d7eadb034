// A year of a small book under the People's Bank guide: each call with its answer.
#![tactic(auto)]

use book::book::Book;
use book::calls::Call;
use either::{Either, Left, Right};
use plain::answers::Answer;
use rules::figures::Figures;
use rules::investees::InvesteeFields;
use rules::national::National;
use sources::estimate::{Estimate, EstimateFigures};
use sources::reported::{Mark, Reported};
use std::io;

// Emissions are reported, and a reduction is estimated against a base period.
type Reads = Either<Reported, Estimate<Reported>>;

fn reported(kilograms: u64) -> Reads {
    Left(Reported {
        kilograms,
        mark: u64::from(Mark::Verified),
    })
}

fn saved(base_kilograms: u64, kilograms: u64) -> Reads {
    let figures = EstimateFigures {
        report_output: 100,
        base_output: 100,
        base_kilograms,
    };
    let below = Reported {
        kilograms,
        mark: u64::from(Mark::Verified),
    };
    Right(Estimate { figures, below })
}

// An investee of medium size, 200 days in the year: kind and size by number, as callers send them.
fn fields(id: u64, kind: u64, investment: u64, revenue: u64) -> InvesteeFields {
    let figures = Figures {
        investment,
        revenue,
        ..Figures::default()
    };
    InvesteeFields {
        id,
        kind,
        sector: 0,
        size: 2,
        days: 200,
        figures,
    }
}

fn post(branch: u64, id: u64, month: u64, balance: u64) -> Call<Reads> {
    Call::Post {
        branch,
        id,
        month,
        balance,
    }
}

fn amend(branch: u64, id: u64, month: u64, balance: u64) -> Call<Reads> {
    Call::Amend {
        branch,
        id,
        month,
        balance,
    }
}

fn restate(id: u64, kilograms: u64) -> Call<Reads> {
    Call::Restate {
        id,
        source: reported(kilograms),
    }
}

// A call with its label.
#[derive(Drop)]
struct Step {
    label: &'static str,
    call: Call<Reads>,
}

fn named(label: &'static str, call: Call<Reads>) -> Step {
    Step { label, call }
}

fn open(id: u64, kind: u64, investment: u64, revenue: u64, kilograms: u64) -> Call<Reads> {
    Call::Open {
        fields: fields(id, kind, investment, revenue),
        source: reported(kilograms),
    }
}

// A book, and where its answers are printed.
#[derive(Drop)]
struct Year<'y> {
    rt: &'y HostRuntime,
    book: Book<'y, National>,
}

impl Year<'_> {
    // Does the calls as one run, and prints each with its answer.
    fn show(&mut self, steps: Vec<Step>) -> io::Result<()> {
        // A run takes its calls in one slice, so the labels stand in a list beside them.
        let mut labels = Vec::with_capacity(self.rt.alloc(), steps.len())?;
        let mut calls = Vec::with_capacity(self.rt.alloc(), steps.len())?;
        for step in steps {
            labels.push(step.label)?;
            calls.push(step.call)?;
        }
        let mut answers = vec![in self.rt.alloc(); Answer::Done; calls.len()]?;
        self.book.run(&calls, &mut answers);
        for (label, answer) in labels.iter().zip(answers.iter()) {
            println!(self.rt; "{label}: {answer}")?;
        }
        Ok(())
    }

    fn openings(&mut self) -> io::Result<()> {
        let steps = vec![in self.rt.alloc();
            named(
                "open 7, a general loan, revenue 10000, 1000 kg",
                open(7, 5, 0, 10_000, 1_000),
            ),
            named(
                "open 8, a project, investment 20000, 2400 kg",
                open(8, 1, 20_000, 0, 2_400),
            ),
            named("open 7 again", open(7, 5, 0, 10_000, 1)),
            named("open 9, a bond", open(9, 6, 0, 0, 1)),
        ]?;
        self.show(steps)
    }

    fn posts(&mut self) -> io::Result<()> {
        let steps = vec![in self.rt.alloc();
            named(
                "branch 1 posts 40000 on 7 in month 1",
                post(1, 7, 1, 40_000),
            ),
            named(
                "branch 2 posts 40000 on 7 in month 1",
                post(2, 7, 1, 40_000),
            ),
            named(
                "branch 3 posts 40000 on 7 in month 12",
                post(3, 7, 12, 40_000),
            ),
            named(
                "branch 1 posts 60000 on 8 in month 6",
                post(1, 8, 6, 60_000),
            ),
            named("branch 1 posts on 7 in month 1 again", post(1, 7, 1, 1)),
            named("branch 41 posts on 7", post(41, 7, 1, 1)),
        ]?;
        self.show(steps)
    }

    fn readings(&mut self) -> io::Result<()> {
        let steps = vec![in self.rt.alloc();
            named("part of branch 1 on 7", Call::Part { id: 7, branch: 1 }),
            named("part of branch 2 on 7", Call::Part { id: 7, branch: 2 }),
            named("part of branch 3 on 7", Call::Part { id: 7, branch: 3 }),
            named("total of 7", Call::Total { id: 7 }),
            named("total of 8", Call::Total { id: 8 }),
            named("sheet of branch 1", Call::Sheet { branch: 1 }),
            named("book total", Call::BookTotal),
        ]?;
        self.show(steps)
    }

    fn changes(&mut self) -> io::Result<()> {
        let steps = vec![in self.rt.alloc();
            named("restate 8 to 3000 kg", restate(8, 3_000)),
            named(
                "reduce 7 by an estimate of 200 kg more than before",
                Call::Reduce {
                    id: 7,
                    source: saved(800, 1_000),
                },
            ),
            named(
                "branch 3 amends month 12 on 7 to 10000",
                amend(3, 7, 12, 10_000),
            ),
            named("branch 3 amends month 11 on 7", amend(3, 7, 11, 1)),
            named("restate 5", restate(5, 1)),
        ]?;
        self.show(steps)
    }
}

fn main(rt: HostRuntime) -> io::Result<()> {
    let rule = National;
    let book = Book::new(&rule);
    let mut year = Year { rt: &rt, book };
    year.openings()?;
    year.readings()?;
    year.posts()?;
    year.readings()?;
    year.changes()?;
    year.readings()
}
