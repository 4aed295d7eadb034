// Prints what each source and layer reads for a table of cases.
#![tactic(auto)]

use either::{Left, Right};
use factors::Activity;
use sources::economic::Economic;
use sources::estimate::{Estimate, EstimateFigures};
use sources::layout::Labelled;
use sources::offset::{Offset, OffsetFigures};
use sources::overseas::{OverseasCut, OverseasFigures};
use sources::physical::Physical;
use sources::reported::Reported;
use sources::source::Source;
use std::io;

fn show<S: Source>(rt: &HostRuntime, label: &str, source: &S) -> io::Result<()> {
    let outcome = source.read();
    rt.println(Labelled { label, outcome })
}

fn reports(rt: &HostRuntime) -> io::Result<()> {
    let cases = [
        ("reported 1000 kg, mark 1", 1_000, 1),
        ("reported 1000 kg, mark 2", 1_000, 2),
        ("reported 1000 kg, mark 0", 1_000, 0),
        ("reported 1000 kg, mark 3", 1_000, 3),
        ("reported 10^12 kg, mark 1", 1_000_000_000_000, 1),
        ("reported 10^12 + 1 kg, mark 1", 1_000_000_000_001, 1),
        ("reported 2^64 - 1 kg, mark 0", u64::MAX, 0),
    ];
    for (label, kilograms, mark) in cases {
        show(rt, label, &Reported { kilograms, mark })?;
    }
    Ok(())
}

fn bill(rt: &HostRuntime, label: &str, terms: &[Activity]) -> io::Result<()> {
    show(rt, label, &Physical { terms })
}

fn term(row: u64, quantity: u64) -> Activity {
    Activity { row, quantity }
}

fn bills(rt: &HostRuntime) -> io::Result<()> {
    let power = term(6, 1_000);
    let diesel = term(3, 1);
    let most = term(6, 10_000_000_000);
    let more = term(6, 10_000_000_001);
    let coal = term(1, 10_000_000_000);
    let no_row = term(7, 1);
    let mut last_bad = [diesel; 16];
    last_bad[15] = no_row;
    bill(
        rt,
        "physical 1000 kWh elsewhere and 1 l diesel",
        &[power, diesel],
    )?;
    bill(rt, "physical without terms", &[])?;
    bill(rt, "physical 16 times 1 l diesel", &[diesel; 16])?;
    bill(rt, "physical 17 times 1 l diesel", &[diesel; 17])?;
    bill(rt, "physical 15 times 1 l diesel, then row 7", &last_bad)?;
    bill(rt, "physical 10^10 kWh elsewhere", &[most])?;
    bill(
        rt,
        "physical 1 l diesel and 10^10 + 1 kWh elsewhere",
        &[diesel, more],
    )?;
    bill(rt, "physical 10^10 t coal", &[coal])
}

fn sector_means(rt: &HostRuntime) -> io::Result<()> {
    let cases = [
        ("economic 250 wan at 40 kg", 250, 40),
        ("economic 500000000 wan at 2000 kg", 500_000_000, 2_000),
        ("economic 500000000 wan at 2001 kg", 500_000_000, 2_001),
        ("economic 500000001 wan at 0 kg", 500_000_001, 0),
        ("economic 0 wan at 1000001 kg", 0, 1_000_001),
    ];
    for (label, output, mean) in cases {
        show(rt, label, &Economic { output, mean })?;
    }
    Ok(())
}

fn estimates(rt: &HostRuntime) -> io::Result<()> {
    let cases = [
        (
            "estimate RO 100, BO 120, BE 1000 over 1050",
            100,
            120,
            1_000,
        ),
        (
            "estimate RO 150, BO 120, BE 1000 over 1050",
            150,
            120,
            1_000,
        ),
        ("estimate RO 100, BO 0, BE 1000 over 1050", 100, 0, 1_000),
        ("estimate RO 9000001, BO 1, BE 0 over 1050", 9_000_001, 1, 0),
        (
            "estimate RO 9000000, BO 1, BE 10^12 over 1050",
            9_000_000,
            1,
            1_000_000_000_000,
        ),
    ];
    for (label, report_output, base_output, base_kilograms) in cases {
        let figures = EstimateFigures {
            report_output,
            base_output,
            base_kilograms,
        };
        let below = Reported {
            kilograms: 1_050,
            mark: 1,
        };
        show(rt, label, &Estimate { figures, below })?;
    }
    Ok(())
}

fn overseas_cuts(rt: &HostRuntime) -> io::Result<()> {
    let cases = [
        ("overseas part 400 of 1000", 400, 1_000),
        ("overseas part 1000 of 1000", 1_000, 1_000),
        ("overseas part 1001 of 1000", 1_001, 1_000),
        ("overseas part 10^12 + 1 of 1000", 1_000_000_000_001, 1_000),
    ];
    for (label, part, kilograms) in cases {
        let figures = OverseasFigures { part };
        let below = Reported { kilograms, mark: 1 };
        show(rt, label, &OverseasCut { figures, below })?;
    }
    let figures = EstimateFigures {
        report_output: 0,
        base_output: 1,
        base_kilograms: 0,
    };
    let below = Reported {
        kilograms: 1,
        mark: 1,
    };
    let below = Estimate { figures, below };
    let figures = OverseasFigures { part: 0 };
    show(rt, "overseas part 0 of -1", &OverseasCut { figures, below })
}

fn offsets(rt: &HostRuntime) -> io::Result<()> {
    let cases = [
        (
            "offset 3 MWh, 1 t CCER, 1 t tickets of 10000",
            3,
            1,
            1,
            10_000,
        ),
        (
            "offset 3 MWh, 1 t CCER, 1 t tickets of 3710",
            3,
            1,
            1,
            3_710,
        ),
        (
            "offset 3 MWh, 1 t CCER, 1 t tickets of 3709",
            3,
            1,
            1,
            3_709,
        ),
        ("offset 10^9 + 1 MWh of 10000", 1_000_000_001, 0, 0, 10_000),
    ];
    for (label, green_power, ccer, tickets, kilograms) in cases {
        let figures = OffsetFigures {
            green_power,
            ccer,
            tickets,
        };
        let below = Reported { kilograms, mark: 1 };
        show(rt, label, &Offset { figures, below })?;
    }
    Ok(())
}

// Sources of two kinds in one list, the second with its fault three layers down.
fn mixed(rt: &HostRuntime) -> io::Result<()> {
    let bill = [term(9, 1)];
    let estimate = Estimate {
        figures: EstimateFigures {
            report_output: 1,
            base_output: 1,
            base_kilograms: 1,
        },
        below: Physical { terms: &bill },
    };
    let cut = OverseasCut {
        figures: OverseasFigures { part: 0 },
        below: estimate,
    };
    let layered = Offset {
        figures: OffsetFigures {
            green_power: 0,
            ccer: 0,
            tickets: 0,
        },
        below: cut,
    };
    let report = Reported {
        kilograms: 7,
        mark: 2,
    };
    let sources = [Left(report), Right(layered)];
    for source in sources.iter() {
        show(rt, "one of a mixed list", source)?;
    }
    Ok(())
}

fn main(rt: HostRuntime) -> io::Result<()> {
    reports(&rt)?;
    bills(&rt)?;
    sector_means(&rt)?;
    estimates(&rt)?;
    overseas_cuts(&rt)?;
    offsets(&rt)?;
    mixed(&rt)
}
