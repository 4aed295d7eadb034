// A book at its limits: examples that run.
#![tactic(auto)]

#[cfg(test)]
mod tests;
