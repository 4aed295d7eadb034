// The lines of a portfolio file: what each kind reads as, or its first field that is not as laid out.
#![tactic(auto)]

mod counted;
mod fields;
pub mod investee;
mod methods;
pub mod misread;
pub mod posts;
pub mod row;
