// The figures of an investee's accounts, and what a rule divides by.
ghost use Rattle.std.specs.Prelude.{◌≡◌};
ghost use Rattle.rules.specs.Figures.{within_limits, given, given_or_whole};

use faults::Refusal;

// The largest figure, in wan; one wan is ten thousand yuan.
pub const MOST_FIGURE: u64 = 500_000_000;

// Whole wan. A figure of 0 is not given: numbers and no Options, since callers and files send 0 for it.
#[derive(Clone, Copy, Debug, Default, PartialEq, Eq)]
pub struct Figures {
    pub investment: u64,
    pub revenue: u64,
    pub total_assets: u64,
    pub initial_value: u64,
}

impl Figures {
    // Whether no figure is over its limit.
    pub fn within_limits(self) -> bool
        ensures { result ≡ within_limits self }
    {
        self.investment <= MOST_FIGURE
            && self.revenue <= MOST_FIGURE
            && self.total_assets <= MOST_FIGURE
            && self.initial_value <= MOST_FIGURE
    }
}

// What exposures are divided by: twelve times an amount in wan, or whatever they add up to.
// An enum of its own and no Option: `Whole` is an answer of a rule, not the want of an amount.
#[derive(Clone, Copy, Debug, PartialEq, Eq)]
pub enum Base {
    Amount(u64),
    Whole,
}

impl Base {
    // A figure as a base, which has to be given.
    // Two functions and no flag: what a figure of 0 means is told by the name.
    pub fn given(figure: u64) -> Result<Base, Refusal>
        ensures { result ≡ given figure }
    {
        match figure {
            0 => Err(Refusal::FigureNotGiven),
            _ => Ok(Base::Amount(figure)),
        }
    }

    // A figure as a base, or whatever the exposures add up to where it is not given.
    pub fn given_or_whole(figure: u64) -> Result<Base, Refusal>
        ensures { result ≡ given_or_whole figure }
    {
        match figure {
            0 => Ok(Base::Whole),
            _ => Ok(Base::Amount(figure)),
        }
    }
}
