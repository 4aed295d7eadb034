// Emission sources, and the layers over them.
#![tactic(auto)]

pub mod economic;
pub mod estimate;
pub mod layout;
pub mod offset;
mod one_of_two;
pub mod overseas;
pub mod physical;
pub mod reading;
pub mod reported;
pub mod source;
#[cfg(test)]
mod tests;
pub mod worked;
