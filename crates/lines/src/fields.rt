// Fields read one after another.
ghost use Rattle.std.specs.Prelude.{◌≡◌, ℕ, suc, OnErr};
ghost use Rattle.lines.specs.Fields.{numbers_of, first, leaving_fields};
ghost use Rattle.lines.specs.Pieces.{left_in};

use crate::numerals::number;
use crate::pieces::Pieces;

/// Why bytes are not a line of so many numbers.
#[derive(Clone, Copy, Debug, PartialEq, Eq)]
pub enum LineError {
    /// More than `MOST_BYTES` bytes.
    TooLong,
    /// The first field, from 0, that is wrong or missing.
    Field(usize),
    /// A field too many.
    Surplus,
}

/// The first field, from 0, that is wrong or missing.
#[derive(Clone, Copy, Debug, PartialEq, Eq)]
pub struct WrongField(pub usize);

impl From<WrongField> for LineError {
    ghost use Rattle.lines.specs.declared.fields.LineError.TheVariants.{Field};

    ghost from_gives = { λ wrong error. error ≡ Field wrong.0 };

    fn from(wrong: WrongField) -> LineError {
        LineError::Field(wrong.0)
    }
}

// The next field as a number; nothing if it is wrong or missing.
fn next_number(fields: &mut Pieces<'_>) -> Option<u64>
    ensures read { (k i : ℕ) → numbers_of (suc k) i (left_in fields.old) ≡ first i result (numbers_of k (suc i) (left_in fields.new)) }
    ensures separator { fields.new.separator ≡ fields.old.separator }
{
    number(fields.next()?)
}

/// The next K fields as numbers, or the first of them that is wrong or missing; then none is taken.
pub fn numbers<const K: usize>(fields: &mut Pieces<'_>) -> Result<[u64; K], WrongField>
    ensures read { numbers_of K 0 (left_in fields.old) ≡ leaving_fields result (left_in fields.new) }
    ensures separator { fields.new.separator ≡ fields.old.separator }
    ensures none_taken { OnErr result (fields.new ≡ fields.old) }
{
    let mut ahead = *fields;
    let mut out = [0; K];
    for (i, n) in out.iter_mut().enumerate() {
        *n = next_number(&mut ahead).ok_or(WrongField(i))?;
    }
    *fields = ahead;
    Ok(out)
}
