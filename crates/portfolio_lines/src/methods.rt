// The method of an investee's line: a letter, and its numbers.
ghost use Rattle.std.specs.Prelude.{◌≡◌};
ghost use Rattle.portfolio_lines.specs.Counted.{fields_left, leaving};
ghost use Rattle.portfolio_lines.specs.Methods.{report_in, mean_in, bill_in, terms_in, method_in, held, held_bill};

use crate::counted::Fields;
use crate::misread::Misread;
use entries::method::{Bill, Method};
use factors::Activity;
use sources::economic::Economic;
use sources::reported::Reported;

// Not one with `read_mean`: only the type and its fields' names differ, and a closure would repeat those.
fn read_report(fields: &mut Fields<'_>) -> Result<Method, Misread>
    ensures { held (report_in (fields_left fields.old)) ≡ leaving result (fields_left fields.new) }
{
    let [kilograms, mark] = fields.numbers::<2>()?;
    Ok(Method::Report(Reported { kilograms, mark }))
}

fn read_mean(fields: &mut Fields<'_>) -> Result<Method, Misread>
    ensures { held (mean_in (fields_left fields.old)) ≡ leaving result (fields_left fields.new) }
{
    let [output, mean] = fields.numbers::<2>()?;
    Ok(Method::Mean(Economic { output, mean }))
}

// The terms of an energy bill, up to the first field that is wrong or missing.
fn read_terms(fields: &mut Fields<'_>, count: u64) -> Result<Bill, Misread>
    ensures { held_bill (terms_in count (fields_left fields.old)) ≡ leaving result (fields_left fields.new) }
{
    let mut bill = Bill::new();
    // Counted: as many terms as the line says, which may be more than a collection takes.
    for _ in 0..count {
        let [row, quantity] = fields.numbers::<2>()?;
        bill.add(Activity { row, quantity });
    }
    Ok(bill)
}

fn read_bill(fields: &mut Fields<'_>) -> Result<Method, Misread>
    ensures { held (bill_in (fields_left fields.old)) ≡ leaving result (fields_left fields.new) }
{
    let [count] = fields.numbers::<1>()?;
    let bill = read_terms(fields, count)?;
    Ok(Method::Bill(bill))
}

// The method, by its letter.
pub fn read_method(fields: &mut Fields<'_>) -> Result<Method, Misread>
    ensures { held (method_in (fields_left fields.old)) ≡ leaving result (fields_left fields.new) }
{
    let place = fields.place;
    match fields.letter()? {
        'R' => read_report(fields),
        'P' => read_bill(fields),
        'E' => read_mean(fields),
        _ => Err(Misread::Field(place)),
    }
}
