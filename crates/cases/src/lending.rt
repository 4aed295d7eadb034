// Books of one investee: how its figures are parted among branches.
use crate::failure::Failure;
use book::book::Book;
use rules::figures::Figures;
use rules::investees::InvesteeFields;
use rules::national::National;
use rules::pudong::Pudong;
use sources::estimate::{Estimate, EstimateFigures};
use sources::reported::{Mark, Reported};

const ID: u64 = 7;

// An investee of medium size, 200 days in the year: kind and size by number, as callers send them.
fn fields(kind: u64, revenue: u64, total_assets: u64) -> InvesteeFields {
    let figures = Figures {
        revenue,
        total_assets,
        ..Figures::default()
    };
    InvesteeFields {
        id: ID,
        kind,
        sector: 0,
        size: 2,
        days: 200,
        figures,
    }
}

fn reported(kilograms: u64) -> Reported {
    Reported {
        kilograms,
        mark: u64::from(Mark::Verified),
    }
}

// A general loan with a revenue of 10,000 wan, to which branches 1, 2 and so on have lent these amounts in January. The caller
// makes the book, since a book that is returned is moved.
fn enter_loan(
    book: &mut Book<'_, National>,
    kilograms: u64,
    balances: &[u64],
) -> Result<(), Failure> {
    book.open(fields(5, 10_000, 0), &reported(kilograms))?;
    for (branch, balance) in (1..).zip(balances) {
        book.post(branch, ID, 1, *balance)?;
    }
    Ok(())
}

pub fn thirds(rt: &HostRuntime) -> Result<(), Failure> {
    let mut book = Book::new(&National);
    enter_loan(&mut book, 1_000, &[40_000, 40_000, 40_000])?;
    let figures = EstimateFigures {
        report_output: 1,
        base_output: 1,
        base_kilograms: 0,
    };
    let below = reported(1_000);
    book.reduce(ID, &Estimate { figures, below })?;
    let a = book.part(ID, 1)?;
    let b = book.part(ID, 2)?;
    let c = book.part(ID, 3)?;
    println!(rt;
        "thirds of 1000 kg: {} {} {}",
        a.emissions, b.emissions, c.emissions
    )?;
    println!(rt;
        "thirds of -1000 kg: {} {} {}",
        a.reductions, b.reductions, c.reductions
    )?;
    Ok(())
}

pub fn pairs(rt: &HostRuntime) -> Result<(), Failure> {
    let mut capped = Book::new(&National);
    enter_loan(&mut capped, 1_000, &[120_000, 60_000])?;
    let a = capped.part(ID, 1)?.emissions;
    let b = capped.part(ID, 2)?.emissions;
    println!(rt; "1000 kg over 120000 and 60000: {a} {b}")?;
    let mut halves = Book::new(&National);
    enter_loan(&mut halves, 1, &[60_000, 60_000])?;
    let a = halves.part(ID, 1)?.emissions;
    let b = halves.part(ID, 2)?.emissions;
    println!(rt; "halves of 1 kg: {a} {b}")?;
    Ok(())
}

// A general loan is counted from an exposure of 6,000 wan.
pub fn limits(rt: &HostRuntime) -> Result<(), Failure> {
    for exposure in [6_000, 5_999] {
        let mut book = Book::new(&National);
        enter_loan(&mut book, 1_000, &[exposure])?;
        let total = book.total(ID)?;
        println!(rt;
            "exposure {exposure}: {} kg, reason {}",
            total.kilograms.emissions, total.reason
        )?;
    }
    Ok(())
}

// A bond cannot be more than the assets.
pub fn bonds(rt: &HostRuntime) -> Result<(), Failure> {
    for balance in [1_000, 1_001] {
        let mut book = Book::new(&Pudong);
        book.open(fields(6, 0, 1_000), &reported(1_000))?;
        // A whole line at once: no half of it stays where printing fails.
        match book.post(1, ID, 12, balance) {
            Ok(()) => println!(rt; "bond balance {balance} on assets 1000: accepted")?,
            Err(fault) => println!(rt;
                "bond balance {balance} on assets 1000: refusal {}",
                fault.refusal.number()
            )?,
        }
    }
    Ok(())
}
