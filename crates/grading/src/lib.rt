// One mean for every kind of record that has a weight and a grade.
#![tactic(auto)]

ghost use Rattle.std.specs.Prelude.{◌≡◌, ℕ, ◌*◌, ◌≤◌, min, sum_by};
ghost use Rattle.grading.specs.Mean.{mean_of, nearest_hundredths, Summed, IsNearest, IsNearestMean};

pub mod hundredths;

pub trait Graded {
    // How much the record counts.
    ghost weight: { Self → ℕ };

    // How good its data are, 1 for the best.
    ghost grade: { Self → ℕ };

    fn weight(&self) -> u64
        ensures value { result ≡ weight self.now }
        ensures bound { result ≤ 1000000000000 };

    fn grade(&self) -> u64
        ensures value { result ≡ grade self.now }
        ensures bound { result ≤ 5 };
}

// 100 × `sum` / `total`, nearest, half up; nothing where the total is 0.
fn nearest_hundredths(sum: u128, total: u128) -> Option<u32>
    requires { Summed sum total }
    ensures value { result ≡ nearest_hundredths sum total }
    ensures nearest { IsNearest sum total result }
{
    if total == 0 {
        return None;
    }
    Some(((200 * sum + total) / (2 * total)) as u32)
}

// Weight × grade and weight, each added up. One pass by hand: in the sum of a chain the bound of each weight is not
// known, and each record would be asked twice.
fn sums<T: Graded>(records: &[T]) -> (u128, u128)
    ensures graded { result.0 ≡ sum_by (λ x. T.weight x * T.grade x) records.now }
    ensures weights { result.1 ≡ sum_by T.weight records.now }
    ensures bound { Summed result.0 result.1 }
{
    let mut total: u128 = 0;
    let mut sum: u128 = 0;
    for record in records {
        let weight = u128::from(record.weight());
        total += weight;
        sum += weight * u128::from(record.grade());
    }
    (sum, total)
}

// The mean grade by weight, in hundredths, nearest, half up; nothing where the weights add up to 0.
pub fn mean<T: Graded>(records: &[T]) -> Option<u32>
    ensures value { result ≡ mean_of T.weight T.grade records.now }
    ensures nearest { IsNearestMean T.weight T.grade records.now result }
{
    let (sum, total) = sums(records);
    nearest_hundredths(sum, total)
}

#[cfg(test)]
mod tests {
    use super::*;

    #[derive(Clone, Copy)]
    struct Sample {
        weight: u64,
        grade: u64,
    }

    impl Graded for Sample {
        ghost weight = { λ s. min s.weight 1000000000000 };

        ghost grade = { λ s. min s.grade 5 };

        fn weight(&self) -> u64 {
            self.weight.min(1_000_000_000_000)
        }

        fn grade(&self) -> u64 {
            self.grade.min(5)
        }
    }

    fn weighted(weight: u64, grade: u64) -> Sample {
        Sample { weight, grade }
    }

    #[test]
    fn means(rt: HostRuntime) {
        let nothing: [Sample; 0] = [];
        assert_eq!(rt; mean(&nothing), None);
        assert_eq!(rt; mean(&[weighted(0, 3)]), None);
        assert_eq!(rt; mean(&[weighted(199, 1), weighted(1, 2)]), Some(101));
        assert_eq!(rt; mean(&[weighted(201, 1), weighted(1, 2)]), Some(100));
        assert_eq!(rt; mean(&[weighted(1_000_000_000_000, 5); 3]), Some(500));
    }
}
