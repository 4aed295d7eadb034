// Finding keys.
ghost use Rattle.std.specs.Prelude.{◌≡◌};
ghost use Rattle.key_index.specs.Chains.{InChain, found_from};
ghost use Rattle.key_index.specs.Keys.{keys_in};
ghost use Rattle.key_index.specs.Places.{first_place, next_place};

use crate::{KeyIndex, bucket_of};

impl<const MOST: usize> KeyIndex<MOST> {
    // The place of a key in its chain, from a place of the chain on.
    fn find(&self, from: Option<usize>, key: u64) -> Option<usize>
        requires { InChain key (keys_in self.now) from }
        ensures { result ≡ found_from key (keys_in self.now) from }
    {
        let mut next = from;
        while let Some(at) = next {
            let link = self.links.as_slice()[at];
            if link.key == key {
                return Some(at);
            }
            next = link.next;
        }
        None
    }

    /// Where a key stands first. Places are counted from 0.
    pub fn first(&self, key: u64) -> Option<usize>
        ensures { result ≡ first_place key (keys_in self.now) }
    {
        self.find(self.firsts[bucket_of(key)], key)
    }

    /// Where the key that stands at a place stands next; nowhere past the end.
    pub fn after(&self, at: usize) -> Option<usize>
        ensures { result ≡ next_place at (keys_in self.now) }
    {
        let link = self.links.as_slice().get(at)?;
        self.find(link.next, link.key)
    }
}
