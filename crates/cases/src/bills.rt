// Cases of sources, of own operations, and of a file.
use crate::failure::Failure;
use answering::answer::answer;
use factors::Activity;
use grading::hundredths::Hundredths;
use operations::items::Item;
use operations::work::work_out;
use pages::page::ROOM;
use sources::estimate::{Estimate, EstimateFigures};
use sources::physical::Physical;
use sources::reported::{Mark, Reported};
use sources::source::Source;

const FILE: &str = "1 2 1\n7 5 0 2 200 0 10000 0 0 0 0 0 0 R 1001 1\n1 7 1\n2 7 1\n60000\n60000\n";

// Rows by number, as callers send them.
fn energy_bill(rt: &HostRuntime) -> Result<(), Failure> {
    let power = Activity {
        row: 6,
        quantity: 1_000,
    };
    let diesel = Activity {
        row: 3,
        quantity: 1,
    };
    let bill = Physical {
        terms: &[power, diesel],
    };
    let kilograms = bill.read()?.kilograms;
    println!(rt; "energy bill of 1000 kWh and 1 litre: {kilograms} kg")?;
    Ok(())
}

fn estimate(rt: &HostRuntime) -> Result<(), Failure> {
    let figures = EstimateFigures {
        report_output: 100,
        base_output: 120,
        base_kilograms: 1_000,
    };
    let below = Reported {
        kilograms: 1_050,
        mark: u64::from(Mark::Verified),
    };
    let kilograms = Estimate { figures, below }.read()?.kilograms;
    println!(rt; "estimate of 100 over 120 of 1000 kg, less 1050: {kilograms} kg")?;
    Ok(())
}

pub fn readings(rt: &HostRuntime) -> Result<(), Failure> {
    energy_bill(rt)?;
    estimate(rt)
}

// 348 kWh come to 199 kg, and 1 kWh to 1 kg.
pub fn mean_grade(rt: &HostRuntime) -> Result<(), Failure> {
    let mut items = [Item::new(6, 348, 1), Item::new(6, 1, 2)];
    let grade = Hundredths(work_out(&mut items)?.grade);
    println!(rt; "mean grade of 199 at 1 and 1 at 2: {grade}")?;
    Ok(())
}

// The page of a file, in one line.
pub fn two_branches(rt: &HostRuntime) -> Result<(), Failure> {
    let mut buffer = [0; ROOM];
    let length = answer(FILE.as_bytes(), &mut buffer)?;
    let page = std::str::from_utf8(&buffer[..length])?;
    let lines = page.trim_end().replace(rt.alloc(), '\n', " / ")?;
    println!(rt; "two branches: {lines}")?;
    Ok(())
}
