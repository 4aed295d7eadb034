// The calls on a book as values, so that a run of them can be handed over at once.
use rules::investees::InvesteeFields;

// A call, with numbers as a caller sends them. Calls of one run have sources of one type: `either::Either` joins two.
#[derive(Drop)]
pub enum Call<S> {
    Open {
        fields: InvesteeFields,
        source: S,
    },
    Restate {
        id: u64,
        source: S,
    },
    Reduce {
        id: u64,
        source: S,
    },
    Post {
        branch: u64,
        id: u64,
        month: u64,
        balance: u64,
    },
    Amend {
        branch: u64,
        id: u64,
        month: u64,
        balance: u64,
    },
    Part {
        id: u64,
        branch: u64,
    },
    Total {
        id: u64,
    },
    Sheet {
        branch: u64,
    },
    BookTotal,
}
