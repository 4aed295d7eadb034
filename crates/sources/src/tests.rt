// The sources' numbers, and readings at the edges.
use crate::economic::Economic;
use crate::estimate::{Estimate, EstimateFigures};
use crate::offset::{Offset, OffsetFigures};
use crate::overseas::{OverseasCut, OverseasFigures};
use crate::physical::Physical;
use crate::reported::Reported;
use crate::source::Source;
use either::Either;
use factors::Activity;

// A clause cannot cite the constant of a generic source.
#[test]
fn each_source_has_its_number(rt: HostRuntime) {
    assert_eq!(rt; Reported::NUMBER, 1);
    assert_eq!(rt; Physical::NUMBER, 2);
    assert_eq!(rt; Economic::NUMBER, 3);
    assert_eq!(rt; Estimate::<Reported>::NUMBER, 4);
    assert_eq!(rt; OverseasCut::<Reported>::NUMBER, 5);
    assert_eq!(rt; Offset::<Reported>::NUMBER, 6);
    assert_eq!(rt; Either::<Reported, Economic>::NUMBER, 0);
}

fn reads(source: &impl Source, kilograms: i64, grade: u8) -> bool {
    match source.read() {
        Ok(reading) => reading.kilograms == kilograms && reading.grade == grade,
        Err(_) => false,
    }
}

fn faults(source: &impl Source, refusal: u32, place: u32, number: u32) -> bool {
    match source.read() {
        Ok(_) => false,
        Err(fault) => fault.refusal.number() == refusal
            && fault.place == place
            && fault.source == number,
    }
}

fn report(kilograms: u64, mark: u64) -> Reported {
    Reported { kilograms, mark }
}

fn bill_reads(terms: &[Activity], kilograms: i64) -> bool {
    reads(&Physical { terms }, kilograms, 3)
}

fn bill_faults(terms: &[Activity], refusal: u32, place: u32) -> bool {
    faults(&Physical { terms }, refusal, place, 2)
}

fn power(quantity: u64) -> Activity {
    Activity { row: 6, quantity }
}

#[test]
fn bottoms_at_the_edges(rt: HostRuntime) {
    assert!(rt; reads(&report(1_000_000_000_000, 1), 1_000_000_000_000, 1));
    assert!(rt; faults(&report(1_000_000_000_001, 1), 1, 0, 1));
    assert!(rt; faults(&report(5, 0), 2, 0, 1));
    assert!(rt; faults(&report(5, 3), 1, 0, 1));
    let mut last_bad = [power(1); 16];
    last_bad[15] = power(10_000_000_001);
    assert!(rt; bill_faults(&[], 3, 0));
    assert!(rt; bill_faults(&[power(1); 17], 3, 0));
    assert!(rt; bill_faults(&last_bad, 1, 16));
    assert!(rt; bill_reads(&[power(10_000_000_000)], 5_703_000_000));
    assert!(rt; bill_faults(&[power(10_000_000_001)], 1, 1));
}

fn estimate(base_output: u64, below: Reported) -> Estimate<Reported> {
    let figures = EstimateFigures {
        report_output: 100,
        base_output,
        base_kilograms: 1_000,
    };
    Estimate { figures, below }
}

fn cut<S>(part: u64, below: S) -> OverseasCut<S> {
    let figures = OverseasFigures { part };
    OverseasCut { figures, below }
}

// Ten megawatt hours are 5,703 kilograms.
fn offset<S>(green_power: u64, below: S) -> Offset<S> {
    let figures = OffsetFigures {
        green_power,
        ccer: 0,
        tickets: 0,
    };
    Offset { figures, below }
}

#[test]
fn layers_at_the_edges(rt: HostRuntime) {
    assert!(rt; reads(&estimate(120, report(1_050, 1)), -217, 1));
    assert!(rt; faults(&estimate(0, report(1_050, 1)), 1, 0, 4));
    assert!(rt; reads(&cut(1_000, report(1_000, 1)), 0, 1));
    assert!(rt; faults(&cut(1_001, report(1_000, 1)), 5, 0, 5));
    assert!(rt; faults(&cut(0, estimate(120, report(1_050, 1))), 5, 0, 5));
    assert!(rt; reads(&offset(10, report(5_703, 1)), 0, 1));
    assert!(rt; faults(&offset(10, report(5_702, 1)), 6, 0, 6));
    assert!(rt; faults(&offset(0, cut(0, estimate(1, report(5, 0)))), 2, 0, 1));
}
