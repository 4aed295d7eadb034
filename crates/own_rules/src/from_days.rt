// A rule with a parameter that it borrows: the days from which an investee is counted.
ghost use Rattle.own_rules.specs.FromDays.{from_days_tables, from-days-lawful};

use faults::Refusal;
use rules::figures::{Base, Figures};
use rules::investees::Financing;
use rules::kinds::Kind;
use rules::rule::Rule;

// It divides by revenue, or by whatever the exposures add up to where revenue is not given.
#[derive(Clone, Copy)]
pub struct FromDays<'a> {
    pub least: &'a u64,
}

impl<'a> Rule for FromDays<'a> {
    ghost tables = { λ r. from_days_tables r.least.now };

    ghost lawful = { λ r. from-days-lawful r.least.now };

    fn base(&self, _kind: Kind, figures: Figures) -> Result<Base, Refusal> {
        Base::given_or_whole(figures.revenue)
    }

    fn reason(&self, financing: Financing) -> u8 {
        if financing.days < *self.least { 1 } else { 0 }
    }
}
