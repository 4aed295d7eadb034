// Lines of decimal numbers: what is accepted is exactly what is printed.
#![tactic(auto)]

pub mod fields;
pub mod line;
pub mod numerals;
pub mod pieces;
pub mod writing;
