// A bill answered.
ghost use Rattle.std.specs.Prelude.{◌≡◌};
ghost use Rattle.bills.specs.Outcomes.{worked, answer_to};

use crate::reading::{Items, Malformed, read_bill};
use faults::Fault;
use operations::items::Totals;
use operations::work::work_out;

/// What comes of a bill. It prints itself.
#[derive(Clone, Drop)]
pub enum Outcome {
    /// Its items with their kilograms, and what they come to.
    Statement(Items, Totals),
    /// Refusal 40 with its place: 0 for more than 64 items, or that of the first item that is not acceptable.
    Refused(Fault),
    /// It is no bill.
    Malformed(Malformed),
}

// Works out the items of a bill.
fn worked(mut items: Items) -> Outcome
    ensures { result ≡ worked items.items }
{
    match work_out(items.as_mut_slice()) {
        Ok(totals) => Outcome::Statement(items, totals),
        Err(fault) => Outcome::Refused(fault),
    }
}

/// The items of a bill with their kilograms and what they come to, or why there are none.
pub fn answer(bill: &[u8]) -> Outcome
    ensures { result ≡ answer_to bill.now }
{
    match read_bill(bill) {
        Ok(items) => worked(items),
        Err(malformed) => Outcome::Malformed(malformed),
    }
}
