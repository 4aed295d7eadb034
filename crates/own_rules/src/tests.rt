// A caller's rules, asked as any rule is, at the ends of what can be asked.
use crate::by_assets::ByAssets;
use crate::from_days::FromDays;
use crate::nobody::Nobody;
use crate::stricter::Stricter;
use faults::{Fault, Refusal};
use rules::figures::{Base, Figures};
use rules::investees::{InvesteeFields, Profile};
use rules::rule::{Rule, attributed};
use std::test::Fail;

// A vehicle of a large firm.
fn vehicle(days: u64, figures: Figures) -> Result<Profile, Fault> {
    InvesteeFields {
        id: 1,
        kind: 4,
        sector: 0,
        size: 1,
        days,
        figures,
    }
    .checked()
}

fn assets(total_assets: u64) -> Figures {
    Figures {
        total_assets,
        ..Figures::default()
    }
}

fn revenue(revenue: u64) -> Figures {
    Figures {
        revenue,
        ..Figures::default()
    }
}

// What a rule says of a vehicle of so many days without exposure.
fn reason<R: Rule>(rule: &R, days: u64) -> Result<u8, Fault> {
    Ok(attributed(rule, vehicle(days, assets(700))?, 0, 0).reason)
}

#[test]
fn divided_by_total_assets(rt: HostRuntime) -> Result<(), Fail> {
    let base = |total_assets| {
        vehicle(40, assets(total_assets)).map(|x| attributed(&ByAssets, x, 0, 0).base)
    };
    assert_eq!(rt; base(700)?, Ok(Base::Amount(700)));
    assert_eq!(rt; base(500_000_000)?, Ok(Base::Amount(500_000_000)));
    assert_eq!(rt;
        base(500_000_001),
        Err(Fault::plain(Refusal::FieldOutOfRange))
    );
    assert_eq!(rt; base(0)?, Err(Refusal::FigureNotGiven));
    Ok(())
}

#[test]
fn left_out_by_the_million(rt: HostRuntime) -> Result<(), Fail> {
    let firm = vehicle(40, assets(700))?;
    for (exposure, millions) in [
        (0, 0),
        (999_999, 0),
        (1_000_000, 1),
        (8_999_999, 8),
        (9_000_000, 9),
    ] {
        assert_eq!(rt;
            attributed(&ByAssets, firm, exposure, 0).reason,
            millions,
            "at {exposure}"
        );
    }
    Ok(())
}

#[test]
fn nobody_is_counted(rt: HostRuntime) -> Result<(), Fail> {
    assert_eq!(rt; reason(&Nobody, 0)?, 9);
    assert_eq!(rt; reason(&Nobody, 366)?, 9);
    Ok(())
}

#[test]
fn counted_from_days(rt: HostRuntime) -> Result<(), Fail> {
    let whole_year = 366;
    let late = FromDays { least: &whole_year };
    assert_eq!(rt; reason(&late, 365)?, 1);
    assert_eq!(rt; reason(&late, 366)?, 0);
    assert_eq!(rt;
        reason(&late, 367),
        Err(Fault::plain(Refusal::FieldOutOfRange))
    );
    let firm = vehicle(40, revenue(500_000_000))?;
    assert_eq!(rt;
        attributed(&late, firm, 0, 0).base,
        Ok(Base::Amount(500_000_000))
    );
    let firm = vehicle(40, revenue(0))?;
    assert_eq!(rt; attributed(&late, firm, 0, 0).base, Ok(Base::Whole));
    Ok(())
}

#[test]
fn stricter_than_another(rt: HostRuntime) -> Result<(), Fail> {
    let over = Stricter {
        rule: &Nobody,
        least: 366,
    };
    assert_eq!(rt; reason(&over, 365)?, 5);
    assert_eq!(rt; reason(&over, 366)?, 9);
    let over = Stricter {
        rule: &ByAssets,
        least: 30,
    };
    let firm = vehicle(30, assets(500_000_000))?;
    let answer = attributed(&over, firm, 9_000_000, 9_000_000);
    assert_eq!(rt; answer.base, Ok(Base::Amount(500_000_000)));
    assert_eq!(rt; answer.reason, 9);
    Ok(())
}
