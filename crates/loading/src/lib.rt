// The entries of a portfolio file tried in order on a book.
#![tactic(auto)]

pub mod loading;
