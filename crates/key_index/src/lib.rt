// Where each key stands in a list of keys, found along the chain of its bucket.
#![tactic(auto)]

ghost use Rattle.std.specs.Prelude.{◌≡◌, ◌<◌};
ghost use Rattle.key_index.specs.Buckets.{bucket_of, bucket_count, Chained, FirstsOf, LastsOf};

use arrayvec::ArrayVec;

mod finding;
mod pushing;
#[cfg(test)]
mod tests;

// Keys of one bucket, which leave the same remainder, are chained in their order. The number is a prime, so that
// keys in equal steps spread over all buckets, unless it divides the step.
const BUCKETS: usize = 251;

// A key, and the place of the next one of its bucket.
#[derive(Clone, Copy, Default)]
struct Link {
    key: u64,
    next: Option<usize>,
}

/// A list of at most MOST keys, which lie in the value itself, with an index by which each is found.
#[derive(Drop)]
pub struct KeyIndex<const MOST: usize> {
    links: ArrayVec<Link, MOST>,
    firsts: [Option<usize>; BUCKETS],
    lasts: [Option<usize>; BUCKETS],
    ghost chained: { Chained links.items },
    ghost begun: { FirstsOf links.items firsts },
    ghost ended: { LastsOf links.items lasts },
}

// The bucket of a key.
fn bucket_of(key: u64) -> usize
    ensures value { result ≡ bucket_of key }
    ensures within { result < bucket_count }
{
    (key % BUCKETS as u64) as usize
}
