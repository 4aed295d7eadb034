// What is answered to the bytes of a portfolio file: the page of its book, or one line that says where it stops.
#![tactic(auto)]

pub mod answer;
mod stops;
