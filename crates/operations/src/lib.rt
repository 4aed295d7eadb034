// The emissions of a lender's own operations.
#![tactic(auto)]

pub mod items;
pub mod work;

#[cfg(test)]
mod tests {
    use crate::items::Item;
    use crate::work::work_out;
    use faults::{Fault, Refusal};
    use std::test::Fail;

    #[test]
    fn a_bill_of_power_and_diesel(rt: HostRuntime) -> Result<(), Fail> {
        let mut items = [Item::new(6, 1000, 1), Item::new(3, 1, 3)];
        match work_out(&mut items) {
            Ok(totals) => {
                assert_eq!(rt; totals.kilograms, 574);
                assert_eq!(rt; totals.grade, Some(101));
            }
            Err(_) => return Err(Fail::new("refused")),
        }
        assert_eq!(rt; items[0].kilograms, 571);
        assert_eq!(rt; items[1].kilograms, 3);
        Ok(())
    }

    #[test]
    fn no_items(rt: HostRuntime) -> Result<(), Fail> {
        let mut items: [Item; 0] = [];
        match work_out(&mut items) {
            Ok(totals) => {
                assert_eq!(rt; totals.kilograms, 0);
                assert_eq!(rt; totals.grade, None);
                Ok(())
            }
            Err(_) => Err(Fail::new("refused")),
        }
    }

    // The refusal of a table, if it is refused.
    fn refused(items: &mut [Item]) -> Option<Fault> {
        match work_out(items) {
            Ok(_) => None,
            Err(fault) => Some(fault),
        }
    }

    #[test]
    fn too_many_items(rt: HostRuntime) {
        let mut items = [Item::new(7, 0, 0); 65];
        assert_eq!(rt;
            refused(&mut items),
            Some(Fault {
                refusal: Refusal::OwnItem,
                place: 0,
                source: 0,
            })
        );
        assert_eq!(rt; refused(&mut [Item::new(1, 1, 1); 64]), None);
    }

    // Tonnes of coal just within 10^12 kilograms, and just beyond.
    #[test]
    fn items_out_of_range(rt: HostRuntime) {
        assert_eq!(rt; refused(&mut [Item::new(1, 454_758_364, 5)]), None);
        let good = Item::new(1, 1, 1);
        let bad = [
            Item::new(0, 1, 1),
            Item::new(7, 1, 1),
            Item::new(2, 10_000_000_001, 1),
            Item::new(2, 1, 0),
            Item::new(2, 1, 6),
            Item::new(1, 454_758_365, 5),
            Item::new(u64::MAX, u64::MAX, u64::MAX),
        ];
        for item in bad {
            let mut items = [
                Item {
                    kilograms: 9,
                    ..good
                },
                good,
                Item {
                    kilograms: 8,
                    ..item
                },
            ];
            assert_eq!(rt;
                refused(&mut items),
                Some(Fault {
                    refusal: Refusal::OwnItem,
                    place: 3,
                    source: 0,
                })
            );
            assert_eq!(rt; items[0].kilograms, 9);
            assert_eq!(rt; items[2].kilograms, 8);
        }
    }
}
