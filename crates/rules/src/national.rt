// The guide of the People's Bank of China.
ghost use Rattle.std.specs.Prelude.{◌≡◌, not, Decides, ◌==◌};
ghost use Rattle.rules.specs.Reasons.{FirstReason};
ghost use Rattle.rules.specs.Tables.{reason_for};
ghost use Rattle.rules.specs.National.{national_bases, national_tables, NationalDivides, NationalApplies, NationalLeavesOut};
ghost use Rattle.rules.specs.Lawful.{national-lawful};

use crate::figures::{Base, Figures};
use crate::investees::Financing;
use crate::kinds::Kind;
use crate::reasons::{FEW_DAYS, LEAST_DAYS, LEAST_LOAN, SMALL_BORROWER, SMALL_LOAN};
use crate::rule::Rule;
use faults::Refusal;

// It covers projects and general loans.
#[derive(Clone, Copy, Debug, PartialEq, Eq)]
pub struct National;

impl Rule for National {
    ghost tables = { λ _. national_tables };

    ghost lawful = { λ _. national-lawful };

    fn base(&self, kind: Kind, figures: Figures) -> Result<Base, Refusal>
        ensures value { result ≡ national_bases kind figures }
        ensures figure { NationalDivides kind figures result }
    {
        match kind {
            Kind::Project => Base::given(figures.investment),
            Kind::GeneralLoan => Base::given(figures.revenue),
            _ => Err(Refusal::KindNotCovered),
        }
    }

    fn reason(&self, financing: Financing) -> u8
        ensures value { result ≡ reason_for national_tables financing }
        ensures first { FirstReason (NationalApplies financing.kind financing.size financing.days financing.exposure financing.closing) result }
    {
        // By numbers, whose ranges are those of the guide: a reason is for several kinds or sizes at once.
        match (u8::from(financing.kind), u8::from(financing.size)) {
            (1 | 5, _) if financing.days < LEAST_DAYS => FEW_DAYS,
            (5, _) if financing.exposure < LEAST_LOAN => SMALL_LOAN,
            (5, 3..=5) => SMALL_BORROWER,
            _ => 0,
        }
    }
}

impl National {
    // Whether the guide leaves an investee out. Each guide has its own theorem of when, so this stands once for each.
    pub fn leaves_out(self, financing: Financing) -> bool
        ensures value { result ≡ not (reason_for national_tables financing == 0) }
        ensures when { Decides result (NationalLeavesOut financing.kind financing.size financing.days financing.exposure financing.closing) }
    {
        self.reason(financing) != 0
    }
}
