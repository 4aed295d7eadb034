// Making an index, and adding keys.
ghost use Rattle.std.specs.Prelude.{◌≡◌, Ok, Err, [], ◌∷◌, ◌++◌, length, replicate, None, nat_le, if◌then◌else◌};
ghost use Rattle.key_index.specs.Buckets.{bucket_count, led_on};
ghost use Rattle.key_index.specs.Keys.{keys_in};

use crate::{BUCKETS, KeyIndex, Link, bucket_of};
use arrayvec::ArrayVec;

// No bucket has a key yet.
fn no_places() -> [Option<usize>; BUCKETS]
    ensures { result ≡ replicate bucket_count None }
{
    [None; BUCKETS]
}

// The link at a place, if there is one, leads on to another place.
fn lead_on<const MOST: usize>(links: &mut ArrayVec<Link, MOST>, from: Option<usize>, to: usize)
    ensures { links.new.items ≡ led_on from to links.old.items }
{
    if let Some(from) = from
        && let Some(link) = links.get_mut(from)
    {
        link.next = Some(to);
    }
}

impl<const MOST: usize> KeyIndex<MOST> {
    /// An index without keys.
    pub fn new() -> KeyIndex<MOST>
        ensures { keys_in result ≡ [] }
    {
        KeyIndex {
            links: ArrayVec::new(),
            firsts: no_places(),
            lasts: no_places(),
        }
    }

    /// Adds a key at the end, and gives it back where there is no room.
    pub fn push(&mut self, key: u64) -> Result<(), u64>
        ensures keys { keys_in self.new ≡ (if nat_le MOST (length (keys_in self.old)) then keys_in self.old else keys_in self.old ++ key ∷ []) }
        ensures told { result ≡ (if nat_le MOST (length (keys_in self.old)) then Err key else Ok tt) }
    {
        let at = self.links.len();
        if at >= MOST {
            return Err(key);
        }
        let bucket = bucket_of(key);
        lead_on(&mut self.links, self.lasts[bucket], at);
        self.firsts[bucket] = self.firsts[bucket].or(Some(at));
        self.lasts[bucket] = Some(at);
        self.links.push(Link { key, next: None });
        Ok(())
    }
}
