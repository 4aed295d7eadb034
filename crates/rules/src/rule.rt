// What an attribution rule is.
ghost use Rattle.std.specs.Prelude.{◌≡◌};
ghost use Rattle.rules.specs.Tables.{Tables, Lawful, reason_for};
ghost use Rattle.rules.specs.Attributions.{attribution_of, InRange};
ghost use Rattle.rules.specs.Seen.{plain_profile};

use crate::figures::{Base, Figures};
use crate::investees::{Financing, Profile};
use crate::kinds::Kind;
use faults::Refusal;

// A rule answers by two tables, which depend on no earlier call.
// It shows that its tables are lawful for all that a book can ask: an amount is 1 to 500,000,000 wan, a refusal is one of two, a reason
// is at most 9.
pub trait Rule {
    ghost tables: { Self → Tables };

    ghost lawful: { (r : Self) → Lawful (tables r) };

    // What the exposures to an investee are divided by: asked by kind and figures alone, since nothing else decides it.
    fn base(&self, kind: Kind, figures: Figures) -> Result<Base, Refusal>
        ensures { result ≡ (tables self.now).bases kind figures };

    // 0 where an investee is counted, else why it is left out: a number, since a caller's rule has reasons of its own and pages print them.
    fn reason(&self, financing: Financing) -> u8
        ensures { result ≡ reason_for (tables self.now) financing };
}

// What a rule says of an investee.
#[derive(Clone, Copy)]
pub struct Attribution {
    pub base: Result<Base, Refusal>,
    // The number that pages print: a caller's rule has reasons of its own, which no enum could list.
    pub reason: u8,
}

/// What any rule says of an investee, by its exposure over the year and its closing balance, in wan.
// The two stand beside the investee: a book adds them up from its table of positions.
pub fn attributed<R: Rule>(rule: &R, investee: Profile, exposure: u64, closing: u64) -> Attribution
    ensures value { result ≡ attribution_of (R.tables rule.now) (plain_profile investee) exposure closing }
    ensures range { InRange exposure closing result }
{
    Attribution {
        base: rule.base(investee.kind, investee.figures),
        reason: rule.reason(investee.financed(exposure, closing)),
    }
}
