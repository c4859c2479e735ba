//! The iterator over a set.
ghost use Rattle.std.specs.Prelude.{◌≡◌};
ghost use Rattle.std.specs.Map.Iter.{ShowsInOrder, deref};
ghost use Rattle.rpds_hash_trie.specs.HashedMap.{key_hash};
ghost use Rattle.rpds_hash.specs.HashedSet.{IsHashedSet};

use crate::map::hash_trie_map::IterKeys;
use crate::set::hash_trie_set::HashTrieSet;
use std::alloc::{Allocator, Global};
use std::hash::{BuildHasher, Hash};

/// The members of a set in the order of the digits of their hashes: the iterator over the keys of its map.
pub type Iter<'a, T, A = Global> = IterKeys<'a, T, (), A>;

#[tactic(auto, using(crate::proofs::Members::member_rules))]
impl<T: Eq + Hash, H: BuildHasher, A: Allocator> HashTrieSet<T, H, A> {
    /// The members, in the order of the digits of their hashes.
    pub fn iter(&self) -> Iter<'_, T, A>
        ensures rest { result ≡ self.now.members }
        ensures hashed { IsHashedSet T.eq
            (key_hash H.BuildHasher H.Hasher.Hasher T.hash_input self.now.hasher) self.now }

        // `next` gives them in this order.
        ensures runs { ShowsInOrder (deref {X = T}) }
    {
        self.map.keys()
    }
}

impl<'a, T: Eq + Hash, H: BuildHasher, A: Allocator> IntoIterator for &'a HashTrieSet<T, H, A> {
    type Item = &'a T;

    type IntoIter = Iter<'a, T, A>;

    ghost into_iter_gives = { λ s it. (it ≡ s.now.members) × ShowsInOrder (deref {X = T}) × IsHashedSet T.eq (key_hash H.BuildHasher H.Hasher.Hasher T.hash_input s.now.hasher) s.now };

    fn into_iter(self) -> Iter<'a, T, A> {
        HashTrieSet::iter(self)
    }
}
