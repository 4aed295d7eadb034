// A lender's bill of its own operations: read, worked out, and printed.
#![tactic(auto)]

pub mod answer;
mod layout;
pub mod reading;
#[cfg(test)]
mod tests;
