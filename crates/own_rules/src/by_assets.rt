// A rule that divides everything by total assets, and leaves out exposures of a million wan or more.
ghost use Rattle.own_rules.specs.ByAssets.{asset_tables, assets-lawful};

use faults::Refusal;
use rules::figures::{Base, Figures};
use rules::investees::Financing;
use rules::kinds::Kind;
use rules::rule::Rule;

#[derive(Clone, Copy)]
pub struct ByAssets;

impl Rule for ByAssets {
    ghost tables = { λ _. asset_tables };

    ghost lawful = { λ _. assets-lawful };

    fn base(&self, _kind: Kind, figures: Figures) -> Result<Base, Refusal> {
        Base::given(figures.total_assets)
    }

    // The whole millions of wan in the exposure. The largest exposure has 9, and no book asks of more.
    fn reason(&self, financing: Financing) -> u8 {
        (financing.exposure / 1_000_000).min(255) as u8
    }
}
