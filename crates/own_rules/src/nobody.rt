// A rule that counts nobody: lawful, if of little use.
ghost use Rattle.own_rules.specs.Nobody.{nobody_tables, nobody-lawful};

use faults::Refusal;
use rules::figures::{Base, Figures};
use rules::investees::Financing;
use rules::kinds::Kind;
use rules::rule::Rule;

#[derive(Clone, Copy)]
pub struct Nobody;

impl Rule for Nobody {
    ghost tables = { λ _. nobody_tables };

    ghost lawful = { λ _. nobody-lawful };

    fn base(&self, _kind: Kind, _figures: Figures) -> Result<Base, Refusal> {
        Ok(Base::Whole)
    }

    fn reason(&self, _financing: Financing) -> u8 {
        9
    }
}
