// What a lender used, item by item.
ghost use Rattle.std.specs.Prelude.{◌≡◌, min, nat_le};
ghost use Rattle.operations.specs.Items.{item_of, kilograms_in, most_kilograms, worked};

use factors::Activity;
use grading::Graded;

// The most kilograms that one item may come to.
pub const MOST_KILOGRAMS: u64 = 1_000_000_000_000;

// An activity and the grade of its data, as a caller sends them: the numbers may be anything.
#[derive(Clone, Copy, Debug, Default, PartialEq, Eq)]
pub struct Item {
    pub activity: Activity,
    pub grade: u64,
    // Written when the item is worked out.
    pub kilograms: u64,
}

// What a table of items comes to: the mean grade is weighted by kilograms, in hundredths, and absent without kilograms.
#[derive(Clone, Copy, Debug, PartialEq, Eq)]
pub struct Totals {
    pub kilograms: u64,
    pub grade: Option<u32>,
}

// Within the limits of an item that has been worked out, these are its kilograms and its grade.
impl Graded for Item {
    ghost weight = { λ x. min x.kilograms most_kilograms };

    ghost grade = { λ x. min x.grade 5 };

    fn weight(&self) -> u64 {
        self.kilograms.min(MOST_KILOGRAMS)
    }

    fn grade(&self) -> u64 {
        self.grade.min(5)
    }
}

// A function of its own, so that the limit itself is proved: no quantity comes to just 10^12.
fn within_limit(kilograms: u64) -> bool
    ensures { result ≡ nat_le kilograms most_kilograms }
{
    kilograms <= MOST_KILOGRAMS
}

impl Item {
    // An item that has not been worked out.
    pub fn new(row: u64, quantity: u64, grade: u64) -> Item
        ensures { result ≡ item_of row quantity grade }
    {
        Item {
            activity: Activity { row, quantity },
            grade,
            kilograms: 0,
        }
    }

    // The kilograms to write; nothing where the item is refused.
    pub fn kilograms_in(self) -> Option<u64>
        ensures { result ≡ kilograms_in self }
    {
        if !(1..=5).contains(&self.grade) {
            return None;
        }
        self.activity.kilograms().filter(|&k| within_limit(k))
    }

    // The item with its kilograms written.
    pub fn worked(self) -> Item
        ensures { result ≡ worked self }
    {
        Item {
            kilograms: self.kilograms_in().unwrap_or(self.kilograms),
            ..self
        }
    }
}
