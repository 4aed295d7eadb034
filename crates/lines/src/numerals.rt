// Decimal numbers without leading zeros.
ghost use Rattle.std.specs.Prelude.{◌≡◌, ◌≤◌, length};
ghost use Rattle.lines.specs.Numerals.{number_of, well_formed, value_of, ReadsWhatIsSpelled};

/// The most digits that a number may have.
pub const MOST_DIGITS: usize = 13;

// The field has as many characters as a number may have, and no zero in front of another.
fn well_formed(field: &[u8]) -> bool
    ensures { result ≡ well_formed field.now }
{
    match field {
        [] => false,
        [first, ..] => field.len() <= MOST_DIGITS && (*first != b'0' || field.len() == 1),
    }
}

// The value of a field that is all digits.
fn value(field: &[u8]) -> Option<u64>
    requires { length field.now ≤ 13 }
    ensures { result ≡ value_of field.now }
{
    let mut n: u64 = 0;
    // A `for` and no `try_fold`: the bound on the number so far is the loop's invariant; a closure knows none.
    for b in field {
        if !b.is_ascii_digit() {
            return None;
        }
        n = n * 10 + u64::from(*b - b'0');
    }
    Some(n)
}

/// The number that a field spells: 1 to 13 digits, without a leading zero.
pub fn number(field: &[u8]) -> Option<u64>
    ensures value { result ≡ number_of field.now }
    ensures spells { ReadsWhatIsSpelled field.now result }
{
    if !well_formed(field) {
        return None;
    }
    value(field)
}
