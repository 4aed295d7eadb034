// The book: one calendar year of one lender, under one attribution rule.
#![tactic(auto)]

pub mod book;
pub mod calls;
mod rows;
