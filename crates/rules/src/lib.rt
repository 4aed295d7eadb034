// Attribution rules: what an investee's exposures are divided by, and whether it is counted.
#![tactic(auto)]

pub mod figures;
pub mod investees;
pub mod kinds;
pub mod national;
pub mod pudong;
pub mod reasons;
pub mod rule;
#[cfg(test)]
mod tests;

// The months of a book's year.
pub const MONTHS: u64 = 12;
