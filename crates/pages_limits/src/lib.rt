// Pages of small books and of a full one, and what is answered to files: examples that run.
#![tactic(auto)]

#[cfg(test)]
mod files;
#[cfg(test)]
mod tests;
