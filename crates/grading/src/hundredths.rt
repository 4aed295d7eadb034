// Hundredths as they are printed.
ghost use Rattle.std.specs.Prelude.{Some};
ghost use Rattle.grading.specs.Hundredths.{two_decimals};

use std::fmt;

// A mean or a share in hundredths, where there is one: printed with two decimals, or as `-`.
#[derive(Clone, Copy, Debug, PartialEq, Eq)]
pub struct Hundredths(pub Option<u32>);

impl fmt::Display for Hundredths {
    ghost output = { λ h. Some (two_decimals h.0) };

    fn fmt<W: fmt::Write>(&self, f: &mut fmt::Formatter<W>) -> fmt::Result {
        match self.0 {
            Some(h) => write!(f, "{}.{}{}", h / 100, h / 10 % 10, h % 10),
            None => write!(f, "-"),
        }
    }
}

#[cfg(test)]
mod tests {
    use super::Hundredths;
    use std::test::Fail;

    #[test]
    fn printed(rt: HostRuntime) -> Result<(), Fail> {
        let cases = [
            (None, "-"),
            (Some(0), "0.00"),
            (Some(101), "1.01"),
            (Some(10_000), "100.00"),
        ];
        for (hundredths, expected) in cases {
            let text = format!(in rt.alloc(); "{}", Hundredths(hundredths))?;
            assert_eq!(rt; text.as_str(), expected);
        }
        Ok(())
    }
}
