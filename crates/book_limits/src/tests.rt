use book::book::Book;
use faults::Fault;
use own_rules::nobody::Nobody;
use own_source::{GaugeLog, Measured};
use plain::answers::Kilograms;
use rules::figures::Figures;
use rules::investees::InvesteeFields;
use rules::national::National;
use rules::pudong::Pudong;
use sources::estimate::{Estimate, EstimateFigures};
use sources::reported::Reported;
use std::test::Fail;

// The number of a refusal, and 0 where there is none.
fn number<T: Drop>(res: Result<T, Fault>) -> u32 {
    res.err().map_or(0, |fault| fault.refusal.number())
}

// An investee of medium size with every figure given.
fn fields(id: u64, kind: u64) -> InvesteeFields {
    let figures = Figures {
        investment: 10_000,
        revenue: 10_000,
        total_assets: 1_000,
        initial_value: 10_000,
    };
    InvesteeFields {
        id,
        kind,
        sector: 0,
        size: 2,
        days: 200,
        figures,
    }
}

fn reported(kilograms: u64) -> Reported {
    Reported { kilograms, mark: 1 }
}

fn kilograms(emissions: i64, reductions: i64) -> Kilograms {
    Kilograms {
        emissions,
        reductions,
    }
}

// What was saved since a base period of so many kilograms, with 1,000 emitted now.
fn saved(base_kilograms: u64) -> Estimate<Reported> {
    let figures = EstimateFigures {
        report_output: 1,
        base_output: 1,
        base_kilograms,
    };
    Estimate {
        figures,
        below: reported(1_000),
    }
}

#[test]
fn investee_201(rt: HostRuntime) -> Result<(), Fail> {
    let mut book = Book::new(&National);
    for id in 1..201 {
        assert_eq!(rt; number(book.open(fields(id, 5), &reported(1))), 0);
    }
    assert_eq!(rt; number(book.open(fields(201, 5), &reported(1))), 15);
    assert_eq!(rt; number(book.open(fields(200, 5), &reported(1))), 14);
    Ok(())
}

#[test]
fn position_501(rt: HostRuntime) -> Result<(), Fail> {
    let mut book = Book::new(&National);
    for id in 1..14 {
        assert_eq!(rt; number(book.open(fields(id, 1), &reported(1))), 0);
    }
    for place in 0..500 {
        assert_eq!(rt; number(book.post(place % 40 + 1, place / 40 + 1, 1, 1)), 0);
    }
    assert_eq!(rt; number(book.post(21, 13, 1, 1)), 24);
    // A position that there is takes another month.
    assert_eq!(rt; number(book.post(20, 13, 2, 1)), 0);
    Ok(())
}

#[test]
fn months_and_exposures(rt: HostRuntime) -> Result<(), Fail> {
    let mut book = Book::new(&National);
    assert_eq!(rt; number(book.open(fields(7, 5), &reported(1_000))), 0);
    assert_eq!(rt; number(book.post(1, 7, 1, 8_999_999)), 0);
    assert_eq!(rt; number(book.post(1, 7, 1, 1)), 22);
    assert_eq!(rt; number(book.amend(1, 7, 2, 1)), 23);
    assert_eq!(rt; number(book.post(2, 7, 1, 2)), 25);
    assert_eq!(rt; number(book.post(2, 7, 1, 1)), 0);
    assert_eq!(rt; number(book.amend(2, 7, 1, 2)), 25);
    assert_eq!(rt; number(book.amend(1, 7, 1, 8_999_998)), 0);
    assert_eq!(rt; number(book.amend(2, 7, 1, 2)), 0);
    assert_eq!(rt; number(book.post(3, 7, 1, 9_000_001)), 20);
    Ok(())
}

// Total assets of 1,000: twelve times a balance of 1,000 is the denominator.
#[test]
fn bond_at_its_denominator(rt: HostRuntime) -> Result<(), Fail> {
    let mut book = Book::new(&Pudong);
    assert_eq!(rt; number(book.open(fields(7, 6), &reported(1_000))), 0);
    assert_eq!(rt; number(book.post(1, 7, 11, 1)), 21);
    assert_eq!(rt; number(book.post(1, 7, 12, 1_001)), 26);
    assert_eq!(rt; number(book.post(1, 7, 12, 1_000)), 0);
    assert_eq!(rt; number(book.amend(1, 7, 12, 1_001)), 26);
    assert_eq!(rt; number(book.post(2, 7, 12, 1)), 26);
    Ok(())
}

// Reductions of -1, 0 and 1 kg, each parted in halves.
#[test]
fn smallest_figures(rt: HostRuntime) -> Result<(), Fail> {
    let mut book = Book::new(&National);
    assert_eq!(rt; number(book.open(fields(7, 5), &reported(1))), 0);
    assert_eq!(rt; number(book.post(1, 7, 1, 60_000)), 0);
    assert_eq!(rt; number(book.post(2, 7, 1, 60_000)), 0);
    let cases = [(999, -1), (1_000, 0), (1_001, 1)];
    for (base, reductions) in cases {
        assert_eq!(rt; number(book.reduce(7, &saved(base))), 0);
        assert_eq!(rt; book.part(7, 1).ok(), Some(kilograms(0, 0)));
        assert_eq!(rt; book.part(7, 2).ok(), Some(kilograms(1, reductions)));
    }
    // Emissions are not below zero.
    assert_eq!(rt; number(book.restate(7, &saved(999))), 13);
    assert_eq!(rt; number(book.open(fields(8, 5), &saved(999))), 13);
    assert_eq!(rt; number(book.open(fields(8, 5), &saved(1_000))), 0);
    Ok(())
}

#[test]
fn rule_that_counts_nobody(rt: HostRuntime) -> Result<(), Fail> {
    let mut book = Book::new(&Nobody);
    assert_eq!(rt; number(book.open(fields(7, 5), &reported(1_000))), 0);
    assert_eq!(rt; number(book.post(1, 7, 1, 60_000)), 0);
    assert_eq!(rt; book.part(7, 1).ok(), Some(kilograms(0, 0)));
    let total = book.book_total();
    assert_eq!(rt; total.all.kilograms, kilograms(0, 0));
    assert_eq!(rt; total.all.emissions_cover, Some(0));
    assert_eq!(rt; total.mean_grade, None);
    Ok(())
}

#[test]
fn own_source_and_declined_calls(rt: HostRuntime) -> Result<(), Fail> {
    let mut book = Book::new(&National);
    let log = GaugeLog {
        kilograms: 1_000,
        hours_down: 101,
    };
    let declined = book.open(fields(7, 5), &Measured { log: &log });
    let fault = declined.err().ok_or("accepted")?;
    assert_eq!(rt; fault.refusal.number(), 7_001);
    assert_eq!(rt; fault.source, 101);
    assert_eq!(rt; number(book.open(fields(7, 5), &reported(1_000))), 0);
    assert_eq!(rt; number(book.post(1, 7, 1, 60_000)), 0);
    let before = book.sheet(1).ok();
    assert_eq!(rt; number(book.post(1, 7, 1, 60_000)), 22);
    assert_eq!(rt; number(book.restate(7, &Measured { log: &log })), 7_001);
    assert_eq!(rt; book.sheet(1).ok(), before);
    Ok(())
}

// The last branch has lent to the second investee, and nobody to the first.
#[test]
fn accounts_and_sheets(rt: HostRuntime) -> Result<(), Fail> {
    let mut book = Book::new(&National);
    assert_eq!(rt; number(book.open(fields(7, 1), &reported(1_000))), 0);
    assert_eq!(rt; number(book.open(fields(5, 5), &reported(1_000))), 0);
    assert_eq!(rt; number(book.post(40, 5, 12, 60_000)), 0);
    let accounts = book.accounts();
    let sheets = book.sheets();
    assert_eq!(rt; sheets[0], None);
    assert_eq!(rt; sheets[39], book.sheet(40).ok());
    assert!(rt; accounts[2].is_none());
    let first = accounts[0].ok_or("the first account is missing")?;
    let second = accounts[1].ok_or("the second account is missing")?;
    assert_eq!(rt; first.id, 7);
    assert_eq!(rt; second.id, 5);
    assert_eq!(rt; first.total.kilograms.emissions, 0);
    assert_eq!(rt; Some(second.total.kilograms), sheets[39]);
    Ok(())
}

// Ids with one remainder by 251, which the index of positions keeps together, posted to by turns.
#[test]
fn ids_251_apart(rt: HostRuntime) -> Result<(), Fail> {
    let mut book = Book::new(&National);
    for (id, figure) in [(1, 1_001), (252, 1_257), (503, 1_513)] {
        assert_eq!(rt; number(book.open(fields(id, 5), &reported(figure))), 0);
        assert_eq!(rt; number(book.post(1, id, 1, 60_000)), 0);
    }
    for id in [1, 252, 503] {
        assert_eq!(rt; number(book.post(2, id, 1, 30_000)), 0);
        assert_eq!(rt; number(book.post(1, id, 1, 1)), 22);
        assert_eq!(rt; number(book.post(1, id + 1, 1, 1)), 16);
    }
    // Each has three quarters of its denominator, the second all of it.
    assert_eq!(rt; number(book.amend(2, 252, 1, 60_000)), 0);
    assert_eq!(rt; number(book.amend(3, 252, 1, 1)), 23);
    assert_eq!(rt; book.part(1, 2).ok(), Some(kilograms(250, 0)));
    assert_eq!(rt; book.part(252, 2).ok(), Some(kilograms(629, 0)));
    assert_eq!(rt; book.part(503, 1).ok(), Some(kilograms(756, 0)));
    assert_eq!(rt; book.part(503, 3).ok(), Some(kilograms(0, 0)));
    assert_eq!(rt;
        book.total(252).ok().map(|total| total.kilograms),
        Some(kilograms(1_257, 0))
    );
    assert_eq!(rt; book.sheet(1).ok(), Some(kilograms(1_884, 0)));
    assert_eq!(rt; book.sheet(2).ok(), Some(kilograms(1_257, 0)));
    Ok(())
}
