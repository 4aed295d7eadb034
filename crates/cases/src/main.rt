// The worked cases, each with its result.
#![tactic(auto)]

mod bills;
mod failure;
mod lending;

use failure::Failure;

fn main(rt: HostRuntime) -> Result<(), Failure> {
    lending::thirds(&rt)?;
    lending::pairs(&rt)?;
    lending::limits(&rt)?;
    bills::readings(&rt)?;
    bills::mean_grade(&rt)?;
    lending::bonds(&rt)?;
    bills::two_branches(&rt)
}
