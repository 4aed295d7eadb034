// Prints what the guides of the People's Bank and of Pudong say of a table of investees, so that the difference can be seen.
#![tactic(auto)]

ghost use Rattle.std.specs.Prelude.{◌≡◌};
ghost use Rattle.guides.specs.Rows.{fields_of};

use comparison::{Facts, compared};
use rules::figures::Figures;
use rules::investees::InvesteeFields;
use std::io;

// An investee of a firm whose four figures differ, with its exposure over the year and its closing balance.
#[derive(Clone, Copy)]
struct Row {
    id: u64,
    kind: u64,
    size: u64,
    days: u64,
    initial_value: u64,
    exposure: u64,
    closing: u64,
}

impl Row {
    fn fields(self) -> InvesteeFields
        ensures { result ≡ fields_of self }
    {
        let figures = Figures {
            investment: 8_000,
            revenue: 10_000,
            total_assets: 25_000,
            initial_value: self.initial_value,
        };
        InvesteeFields {
            id: self.id,
            kind: self.kind,
            sector: 0,
            size: self.size,
            days: self.days,
            figures,
        }
    }
}

// Both sides of each limit that the guides set.
const TABLE: [Row; 16] = [
    Row {
        id: 1,
        kind: 1,
        size: 2,
        days: 29,
        initial_value: 0,
        exposure: 9_000,
        closing: 800,
    },
    Row {
        id: 2,
        kind: 1,
        size: 2,
        days: 30,
        initial_value: 0,
        exposure: 9_000,
        closing: 800,
    },
    Row {
        id: 3,
        kind: 1,
        size: 3,
        days: 200,
        initial_value: 0,
        exposure: 9_000,
        closing: 800,
    },
    Row {
        id: 4,
        kind: 2,
        size: 1,
        days: 200,
        initial_value: 0,
        exposure: 9_000,
        closing: 800,
    },
    Row {
        id: 5,
        kind: 3,
        size: 1,
        days: 200,
        initial_value: 600,
        exposure: 3_000,
        closing: 250,
    },
    Row {
        id: 6,
        kind: 3,
        size: 1,
        days: 200,
        initial_value: 0,
        exposure: 3_000,
        closing: 250,
    },
    Row {
        id: 7,
        kind: 4,
        size: 1,
        days: 200,
        initial_value: 60,
        exposure: 300,
        closing: 25,
    },
    Row {
        id: 8,
        kind: 4,
        size: 1,
        days: 200,
        initial_value: 0,
        exposure: 300,
        closing: 25,
    },
    Row {
        id: 9,
        kind: 5,
        size: 2,
        days: 200,
        initial_value: 0,
        exposure: 5_999,
        closing: 500,
    },
    Row {
        id: 10,
        kind: 5,
        size: 2,
        days: 200,
        initial_value: 0,
        exposure: 6_000,
        closing: 500,
    },
    Row {
        id: 11,
        kind: 5,
        size: 3,
        days: 200,
        initial_value: 0,
        exposure: 6_000,
        closing: 500,
    },
    Row {
        id: 12,
        kind: 5,
        size: 2,
        days: 200,
        initial_value: 0,
        exposure: 6_000,
        closing: 0,
    },
    Row {
        id: 13,
        kind: 5,
        size: 2,
        days: 200,
        initial_value: 0,
        exposure: 6_000,
        closing: 1,
    },
    Row {
        id: 14,
        kind: 5,
        size: 5,
        days: 29,
        initial_value: 0,
        exposure: 5_999,
        closing: 0,
    },
    Row {
        id: 15,
        kind: 6,
        size: 5,
        days: 0,
        initial_value: 0,
        exposure: 0,
        closing: 0,
    },
    Row {
        id: 16,
        kind: 7,
        size: 1,
        days: 200,
        initial_value: 0,
        exposure: 6_000,
        closing: 500,
    },
];

fn main(rt: HostRuntime) -> io::Result<()> {
    for row in TABLE {
        match row.fields().checked() {
            Ok(investee) => {
                let facts = Facts {
                    investee,
                    exposure: row.exposure,
                    closing: row.closing,
                };
                rt.println(compared(facts))?
            }
            Err(fault) => {
                let id = row.id;
                let n = fault.refusal.number();
                println!(rt; "{id}: refused with {n}")?
            }
        }
    }
    Ok(())
}
