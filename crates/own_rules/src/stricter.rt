// A rule over any rule: it divides as that one does, and asks for more days.
ghost use Rattle.own_rules.specs.Stricter.{stricter_tables, stricter-lawful};

use faults::Refusal;
use rules::figures::{Base, Figures};
use rules::investees::Financing;
use rules::kinds::Kind;
use rules::rule::Rule;

#[derive_where(Clone, Copy)]
pub struct Stricter<'a, R> {
    pub rule: &'a R,
    pub least: u64,
}

impl<'a, R: Rule> Rule for Stricter<'a, R> {
    ghost tables = { λ r. stricter_tables r.least (R.tables r.rule.now) };

    ghost lawful = { λ r. stricter-lawful r.least (R.tables r.rule.now) (R.lawful r.rule.now) };

    fn base(&self, kind: Kind, figures: Figures) -> Result<Base, Refusal> {
        self.rule.base(kind, figures)
    }

    fn reason(&self, financing: Financing) -> u8 {
        if financing.days < self.least {
            return 5;
        }
        self.rule.reason(financing)
    }
}
