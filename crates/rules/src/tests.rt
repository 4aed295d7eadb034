// The guides at both sides of each limit, and fields at the ends of their ranges.
use crate::figures::{Base, Figures};
use crate::investees::{Financing, InvesteeFields};
use crate::kinds::{Kind, Size};
use crate::national::National;
use crate::pudong::Pudong;
use crate::rule::Rule;
use faults::Refusal;

// The reasons of National and of Pudong for a kind, a size, days, exposure and closing balance.
fn reasons(kind: Kind, size: Size, days: u64, exposure: u64, closing: u64) -> (u8, u8) {
    let financing = Financing {
        kind,
        size,
        days,
        exposure,
        closing,
    };
    (National.reason(financing), Pudong.reason(financing))
}

#[test]
fn guides_at_their_limits(rt: HostRuntime) {
    assert_eq!(rt;
        reasons(Kind::GeneralLoan, Size::Medium, 29, 6_000, 1),
        (1, 1)
    );
    assert_eq!(rt;
        reasons(Kind::GeneralLoan, Size::Medium, 30, 6_000, 1),
        (0, 0)
    );
    assert_eq!(rt;
        reasons(Kind::GeneralLoan, Size::Medium, 30, 5_999, 1),
        (2, 2)
    );
    assert_eq!(rt;
        reasons(Kind::GeneralLoan, Size::Small, 30, 6_000, 1),
        (3, 3)
    );
    assert_eq!(rt;
        reasons(Kind::GeneralLoan, Size::Medium, 30, 6_000, 0),
        (0, 4)
    );
    assert_eq!(rt;
        reasons(Kind::GeneralLoan, Size::Person, 29, 5_999, 0),
        (1, 1)
    );
    assert_eq!(rt; reasons(Kind::Project, Size::Person, 30, 0, 1), (0, 3));
    assert_eq!(rt; reasons(Kind::Vehicle, Size::Large, 29, 0, 0), (0, 1));
    assert_eq!(rt; reasons(Kind::Bond, Size::Person, 0, 0, 0), (0, 0));
}

#[test]
fn what_guides_divide_by(rt: HostRuntime) {
    let figures = Figures {
        investment: 1,
        revenue: 2,
        total_assets: 3,
        initial_value: 0,
    };
    assert_eq!(rt; National.base(Kind::Project, figures), Ok(Base::Amount(1)));
    assert_eq!(rt;
        National.base(Kind::GeneralLoan, figures),
        Ok(Base::Amount(2))
    );
    assert_eq!(rt;
        National.base(Kind::Bond, figures),
        Err(Refusal::KindNotCovered)
    );
    assert_eq!(rt;
        Pudong.base(Kind::PropertyDevelopment, figures),
        Ok(Base::Amount(1))
    );
    assert_eq!(rt;
        Pudong.base(Kind::PropertyPurchase, figures),
        Err(Refusal::FigureNotGiven)
    );
    assert_eq!(rt; Pudong.base(Kind::Vehicle, figures), Ok(Base::Whole));
    assert_eq!(rt; Pudong.base(Kind::Bond, figures), Ok(Base::Amount(3)));
}

#[test]
fn fields_at_the_ends_of_their_ranges(rt: HostRuntime) {
    let figures = Figures {
        investment: 500_000_000,
        revenue: 0,
        total_assets: 500_000_000,
        initial_value: 0,
    };
    let most = InvesteeFields {
        id: 4_294_967_295,
        kind: 6,
        sector: 8,
        size: 5,
        days: 366,
        figures,
    };
    assert!(rt; most.checked().is_ok());
    assert!(rt; InvesteeFields { id: 0, ..most }.checked().is_err());
    assert!(rt; InvesteeFields { kind: 7, ..most }.checked().is_err());
    assert!(rt; InvesteeFields { sector: 9, ..most }.checked().is_err());
    assert!(rt; InvesteeFields { size: 0, ..most }.checked().is_err());
    assert!(rt; InvesteeFields { days: 367, ..most }.checked().is_err());
    let over = Figures {
        revenue: 500_000_001,
        ..figures
    };
    assert!(rt;
        InvesteeFields {
            figures: over,
            ..most
        }
        .checked()
        .is_err()
    );
}
