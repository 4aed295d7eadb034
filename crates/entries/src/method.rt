// How an investee's emissions are found: a report, an energy bill, or the mean of its sector.
ghost use Rattle.std.specs.Prelude.{◌≡◌, ◌<◌, List, [], ◌∷◌, ◌++◌, take};
ghost use Rattle.factors.specs.declared.Activity.{Activity as Term};
ghost use Rattle.entries.specs.Bills.{bill_of, most_held, terms_in, with_term};
ghost use Rattle.entries.specs.Methods.{held_meaning, held-within};

use factors::Activity;
use faults::Fault;
use sources::economic::Economic;
use sources::physical::{MOST_TERMS, Physical};
use sources::reading::Reading;
use sources::reported::Reported;
use sources::source::Source;

/// One term more than an energy bill may have: it shows that a bill is too long, and no further term matters.
pub const MOST_HELD: usize = MOST_TERMS + 1;

// What an empty place holds.
const NO_TERM: Activity = Activity {
    row: 0,
    quantity: 0,
};

/// The terms of an energy bill in their order, as far as they matter.
// A table with a count: an `ArrayVec` is not `Copy`.
#[derive(Clone, Copy)]
pub struct Bill {
    terms: [Activity; MOST_HELD],
    count: usize,
}

impl Bill {
    /// A bill without terms.
    pub fn new() -> Bill
        ensures { result ≡ bill_of [] }
    {
        Bill {
            terms: [NO_TERM; MOST_HELD],
            count: 0,
        }
    }

    // Writes a term at the first place that is empty.
    fn put(&mut self, term: Activity)
        requires { self.old.count < most_held }
        ensures { self.new ≡ with_term self.old term }
    {
        self.terms[self.count] = term;
        self.count += 1;
    }

    /// Adds a term at the end. A bill that holds 17 terms stays as it is.
    pub fn add(&mut self, term: Activity)
        ensures holds { terms_in self.new ≡ take most_held (terms_in self.old ++ term ∷ []) }
        ensures bill { (terms : List Term) → self.old ≡ bill_of terms → self.new ≡ bill_of (terms ++ term ∷ []) }
    {
        if self.count < MOST_HELD {
            self.put(term);
        }
    }
}

/// How an investee's emissions are found: one case for each source that has no other below it.
#[derive(Clone, Copy)]
pub enum Method {
    Report(Reported),
    Bill(Bill),
    Mean(Economic),
}

impl Source for Method {
    // It finds no fault by itself.
    const NUMBER: u32 = 0;

    ghost meaning = { held_meaning };

    ghost within = { held-within };

    fn read(&self) -> Result<Reading, Fault> {
        match self {
            Method::Report(report) => report.read(),
            Method::Bill(bill) => {
                let count = bill.count.min(MOST_HELD);
                Physical {
                    terms: &bill.terms[0..count],
                }
                .read()
            }
            Method::Mean(mean) => mean.read(),
        }
    }
}
