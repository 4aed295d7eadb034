// The entries of a portfolio as values: investees with their sources, the rule they go under, and where a file stops.
#![tactic(auto)]

pub mod guide;
pub mod investee;
pub mod method;
pub mod stop;
