// The line of an investee.
ghost use Rattle.std.specs.Prelude.{◌≡◌};
ghost use Rattle.portfolio_lines.specs.Counted.{fields_left, leaving};
ghost use Rattle.portfolio_lines.specs.Lines.{fields_in, entry_in, investee_of, held_over, held_in, held_line};
ghost use Rattle.portfolio_lines.specs.Places.{FieldsOfInvestee, RefusesWrongLines};
ghost use Rattle.portfolio_lines.specs.Text.{ReadsInvestees};

use crate::counted::Fields;
use crate::methods::read_method;
use crate::misread::Misread;
use entries::investee::InvesteeEntry;
use entries::method::Method;
use lines::line::MOST_BYTES;
use lines::pieces::Pieces;
use rules::figures::Figures;
use rules::investees::InvesteeFields;
use sources::offset::{Offset, OffsetFigures};
use sources::overseas::{OverseasCut, OverseasFigures};

/// How many numbers the line of an investee has before the letter of its method.
pub const NUMBERS_BEFORE_METHOD: usize = 13;

// What the investee is, from the first of these numbers.
fn investee_fields(head: [u64; NUMBERS_BEFORE_METHOD]) -> InvesteeFields
    ensures { result ≡ fields_in head }
{
    let [
        id,
        kind,
        sector,
        size,
        days,
        investment,
        revenue,
        total_assets,
        initial_value,
        ..
    ] = head;
    InvesteeFields {
        id,
        kind,
        sector,
        size,
        days,
        figures: Figures {
            investment,
            revenue,
            total_assets,
            initial_value,
        },
    }
}

// The entry of these numbers and a method; the last four are the layers' over the method.
fn entry(head: [u64; NUMBERS_BEFORE_METHOD], method: Method) -> InvesteeEntry
    ensures { result ≡ held_over head method }
{
    let [.., part, green_power, ccer, tickets] = head;
    let below = OverseasCut {
        figures: OverseasFigures { part },
        below: method,
    };
    let figures = OffsetFigures {
        green_power,
        ccer,
        tickets,
    };
    InvesteeEntry {
        fields: investee_fields(head),
        source: Offset { figures, below },
    }
}

fn read_entry(fields: &mut Fields<'_>) -> Result<InvesteeEntry, Misread>
    ensures { held_in (entry_in (fields_left fields.old)) ≡ leaving result (fields_left fields.new) }
{
    let head = fields.numbers::<NUMBERS_BEFORE_METHOD>()?;
    let method = read_method(fields)?;
    Ok(entry(head, method))
}

/// The investee of a line, which is given without its line feed.
pub fn read_investee(line: &[u8]) -> Result<InvesteeEntry, Misread>
    ensures value { result ≡ held_line (investee_of line.now) }
    ensures lines { ReadsInvestees line.now }
    ensures refuses { RefusesWrongLines FieldsOfInvestee line.now result }
{
    if line.len() > MOST_BYTES {
        return Err(Misread::TooLong);
    }
    let mut fields = Fields {
        pieces: Pieces::new(line, b' '),
        place: 1,
    };
    let entry = read_entry(&mut fields)?;
    fields.end()?;
    Ok(entry)
}
