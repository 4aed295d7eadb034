// The guide for banks in Pudong.
ghost use Rattle.std.specs.Prelude.{◌≡◌, false, not, Decides, ◌==◌};
ghost use Rattle.rules.specs.Reasons.{FirstReason};
ghost use Rattle.rules.specs.Tables.{reason_for};
ghost use Rattle.rules.specs.Pudong.{pudong_bases, pudong_tables, PudongDivides, PudongApplies, PudongLeavesOut};
ghost use Rattle.rules.specs.Lawful.{pudong-lawful};

use crate::figures::{Base, Figures};
use crate::investees::Financing;
use crate::kinds::Kind;
use crate::reasons::{FEW_DAYS, LEAST_DAYS, LEAST_LOAN, REPAID, SMALL_BORROWER, SMALL_LOAN};
use crate::rule::Rule;
use faults::Refusal;

// It covers every kind.
#[derive(Clone, Copy, Debug, PartialEq, Eq)]
pub struct Pudong;

impl Rule for Pudong {
    ghost tables = { λ _. pudong_tables };

    ghost lawful = { λ _. pudong-lawful };

    fn base(&self, kind: Kind, figures: Figures) -> Result<Base, Refusal>
        ensures value { result ≡ pudong_bases kind figures }
        ensures figure { PudongDivides kind figures result }
    {
        match kind {
            Kind::Project | Kind::PropertyDevelopment => Base::given(figures.investment),
            Kind::PropertyPurchase => Base::given(figures.initial_value),
            Kind::Vehicle => Base::given_or_whole(figures.initial_value),
            Kind::GeneralLoan | Kind::Bond => Base::given(figures.total_assets),
        }
    }

    fn reason(&self, financing: Financing) -> u8
        ensures value { result ≡ reason_for pudong_tables financing }
        ensures first { FirstReason (PudongApplies financing.kind financing.size financing.days financing.exposure financing.closing) result }
    {
        // By numbers, whose ranges are those of the guide: a reason is for several kinds or sizes at once.
        match (u8::from(financing.kind), u8::from(financing.size)) {
            (1..=5, _) if financing.days < LEAST_DAYS => FEW_DAYS,
            (5, _) if financing.exposure < LEAST_LOAN => SMALL_LOAN,
            (1..=5, 3..=5) => SMALL_BORROWER,
            (1..=5, _) if financing.closing == 0 => REPAID,
            _ => 0,
        }
    }
}

impl Pudong {
    // Whether the guide leaves an investee out. Each guide has its own theorem of when, so this stands once for each.
    pub fn leaves_out(self, financing: Financing) -> bool
        ensures value { result ≡ not (reason_for pudong_tables financing == 0) }
        ensures when { Decides result (PudongLeavesOut financing.kind financing.size financing.days financing.exposure financing.closing) }
        ensures bond { financing.kind ≡ Kind.Bond → result ≡ false }
    {
        self.reason(financing) != 0
    }
}
