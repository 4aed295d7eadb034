// What is printed of an investee and of the guides' answers.
ghost use Rattle.std.specs.Prelude.{Some};
ghost use Rattle.comparison.specs.Lines.{base_text, answer_text, facts_text, comparison_text};

use crate::{Comparison, Facts};
use faults::Refusal;
use rules::figures::Base;
use rules::rule::Attribution;
use std::fmt;

// What a rule takes as base, or its refusal.
#[derive(Clone, Copy)]
struct BaseWords(Result<Base, Refusal>);

impl fmt::Display for BaseWords {
    ghost output = { λ b. Some (base_text b.0) };

    fn fmt<W: fmt::Write>(&self, f: &mut fmt::Formatter<W>) -> fmt::Result {
        match self.0 {
            Ok(Base::Amount(amount)) => write!(f, "divides by {amount}"),
            Ok(Base::Whole) => f.write_str("takes the whole"),
            Err(refusal) => {
                let number = refusal.number();
                write!(f, "refuses with {number}")
            }
        }
    }
}

// What a rule answers for an investee.
#[derive(Clone, Copy)]
struct AnswerWords(Attribution);

impl fmt::Display for AnswerWords {
    ghost output = { λ a. Some (answer_text a.0) };

    fn fmt<W: fmt::Write>(&self, f: &mut fmt::Formatter<W>) -> fmt::Result {
        let base = BaseWords(self.0.base);
        let reason = self.0.reason;
        write!(f, "{base}, reason {reason}")
    }
}

/// An investee by its numbers.
impl fmt::Display for Facts {
    ghost output = { λ x. Some (facts_text x) };

    fn fmt<W: fmt::Write>(&self, f: &mut fmt::Formatter<W>) -> fmt::Result {
        let Facts {
            investee,
            exposure,
            closing,
        } = *self;
        let id = investee.id;
        let kind = u8::from(investee.kind);
        let size = u8::from(investee.size);
        let days = investee.days;
        write!(
            f,
            "{id}: kind {kind}, size {size}, days {days}, exposure {exposure}, closing {closing}"
        )
    }
}

/// The investee's numbers, then what each guide answers.
impl fmt::Display for Comparison {
    ghost output = { λ c. Some (comparison_text c) };

    fn fmt<W: fmt::Write>(&self, f: &mut fmt::Formatter<W>) -> fmt::Result {
        let facts = self.facts;
        let national = AnswerWords(self.national);
        let pudong = AnswerWords(self.pudong);
        write!(f, "{facts}; National {national}; Pudong {pudong}")
    }
}
