// What both guides say of an investee, in a line.
#![tactic(auto)]

ghost use Rattle.std.specs.Prelude.{◌≡◌};
ghost use Rattle.comparison.specs.Lines.{comparison_of};

use rules::investees::Profile;
use rules::national::National;
use rules::pudong::Pudong;
use rules::rule::{Attribution, attributed};

mod texts;

/// An investee with its exposure over the year and its closing balance, in wan. It prints its numbers.
#[derive(Clone, Copy, Debug, PartialEq, Eq)]
pub struct Facts {
    pub investee: Profile,
    pub exposure: u64,
    pub closing: u64,
}

/// An investee's facts, with what the guides of the People's Bank and of Pudong answer. It prints them in one line.
#[derive(Clone, Copy)]
pub struct Comparison {
    pub facts: Facts,
    pub national: Attribution,
    pub pudong: Attribution,
}

/// What both guides answer for an investee.
pub fn compared(facts: Facts) -> Comparison
    ensures { result ≡ comparison_of facts }
{
    let Facts {
        investee,
        exposure,
        closing,
    } = facts;
    Comparison {
        facts,
        national: attributed(&National, investee, exposure, closing),
        pudong: attributed(&Pudong, investee, exposure, closing),
    }
}
