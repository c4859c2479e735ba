//! Equality of maps: that of their contents, whatever their degrees, their hashers and the orders of their iterators.
ghost use Rattle.std.specs.Cmp.{on_per, on_equiv};
ghost use Rattle.rpds_hash.specs.PairsEqual.{pairs_equal, pairs_per, pairs_equiv};

use crate::map::hash_trie_map::HashTrieMap;
use std::alloc::Allocator;
use std::hash::{BuildHasher, Hash};

/// One look-up for each pair, up to the first that isn't found with an equal value. It allocates nothing.
impl<K: Eq + Hash, V: PartialEq, H: BuildHasher, A: Allocator> PartialEq
    for HashTrieMap<K, V, H, A> {
    ghost eq = { λ m n. pairs_equal K.eq V.eq m.entries n.entries };

    ghost laws = { on_per (λ m. m.entries) (pairs_per K.eq V.eq K.Eq.laws V.laws) };

    fn eq(&self, other: &HashTrieMap<K, V, H, A>) -> bool {
        if self.size() != other.size() {
            return false;
        }
        for (key, value) in self.iter() {
            match other.get(key) {
                Some(found) => {
                    if !value.eq(found) {
                        return false;
                    }
                }
                None => return false,
            }
        }
        true
    }
}

impl<K: Eq + Hash, V: Eq, H: BuildHasher, A: Allocator> Eq for HashTrieMap<K, V, H, A> {
    ghost laws = { on_equiv (λ m. m.entries) (pairs_equiv K.eq V.eq K.Eq.laws V.Eq.laws) };
}
