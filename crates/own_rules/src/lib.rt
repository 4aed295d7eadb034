// Rules of a caller's own, complete: docs/OWN-RULES.md goes through them.
#![tactic(auto)]

pub mod by_assets;
pub mod from_days;
pub mod nobody;
pub mod stricter;
#[cfg(test)]
mod tests;
