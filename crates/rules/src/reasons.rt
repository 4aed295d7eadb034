// The limits that both guides set, and the numbers of their reasons to leave an investee out.
use crate::MONTHS;

// The days from which an investee is counted.
pub const LEAST_DAYS: u64 = 30;

// The exposure from which a general loan is counted: 500 wan a month on average.
pub const LEAST_LOAN: u64 = 500 * MONTHS;

// Fewer days than `LEAST_DAYS`.
pub const FEW_DAYS: u8 = 1;

// A general loan of less exposure than `LEAST_LOAN`.
pub const SMALL_LOAN: u8 = 2;

// A small or micro enterprise, or a person.
pub const SMALL_BORROWER: u8 = 3;

// Nothing left at the close of the year: Pudong's alone.
pub const REPAID: u8 = 4;
