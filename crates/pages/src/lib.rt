// The page of a book: a line for each investee and each branch, and the total.
#![tactic(auto)]

pub mod page;
mod tables;
mod writers;
