// The layout of a portfolio file at its limits: examples that run.
#![tactic(auto)]

#[cfg(test)]
mod tests;
