//! std's traits that make and fill a map by what an iterator gives, and make empty ones.
ghost use Rattle.std.specs.Prelude.{◌≡◌, ◌++◌, [], map, reverse};
ghost use Rattle.std.specs.Map.Iter.{deref_pair};
ghost use Rattle.rpds_hash_trie.specs.HashChanges.{AreCollected};
ghost use Rattle.rpds_hash_trie.specs.HashedMap.{find};

use crate::map::hash_trie_map::HashTrieMap;
use std::alloc::{AllocError, Allocator};
use std::default::{Emptied, MadeWith};
use std::hash::{BuildHasher, Hash};
use std::iter::{Extend, FromIterator};

/// `collect`: of pairs with equal keys the last is kept. The degree is 64.
impl<
    K: Eq + Hash + Drop,
    V: Drop,
    H: BuildHasher + Default + Drop,
    A: Allocator + Copy,
> FromIterator<(K, V)> for HashTrieMap<K, V, H, A> {
    type Alloc = A;

    ghost from_iter_gives = { λ pairs map. AreCollected K.eq pairs map.entries × (map.degree ≡ 64) × H.is_default map.hasher };

    fn from_iter<U: IntoIterator<Item = (K, V)>>(
        alloc: A,
        iter: U,
    ) -> Result<HashTrieMap<K, V, H, A>, AllocError> {
        HashTrieMap::from_iter(alloc, iter)
    }
}

/// `extend` by the trait is [`HashTrieMap::extend`](HashTrieMap::extend): an error leaves the map as it is.
impl<K: Eq + Hash + Drop, V: Drop, H: BuildHasher + Clone + Drop, A: Allocator + Copy> Extend<
    (K, V),
> for HashTrieMap<K, V, H, A> {
    ghost can_extend = { λ _ _. (x y : H) → H.is_clone x y → y ≡ x };

    ghost extend_gives = { λ map more longer. ((k : K) → find K.eq k longer.entries ≡ find K.eq k (reverse more ++ map.entries)) × (longer ≡ record map { entries = longer.entries }) };

    fn extend<U: IntoIterator<Item = (K, V)>>(&mut self, iter: U) -> Result<(), AllocError> {
        let pairs = iter.into_iter();
        HashTrieMap::extend(self, pairs)
    }
}

/// The same of what references lead to.
impl<
    'a,
    K: Copy + Eq + Hash + Drop + 'a,
    V: Copy + Drop + 'a,
    H: BuildHasher + Clone + Drop,
    A: Allocator + Copy,
> Extend<(&'a K, &'a V)> for HashTrieMap<K, V, H, A> {
    ghost can_extend = { λ _ _. (x y : H) → H.is_clone x y → y ≡ x };

    ghost extend_gives = { λ old more new. ((k : K) → find K.eq k new.entries ≡ find K.eq k (reverse (map deref_pair more) ++ old.entries)) × (new ≡ record old { entries = new.entries }) };

    fn extend<U: IntoIterator<Item = (&'a K, &'a V)>>(
        &mut self,
        iter: U,
    ) -> Result<(), AllocError> {
        let pairs = iter.into_iter();
        self.extend_copied(pairs)
    }
}

/// The empty map of degree 64, for `or_default` of std's maps.
impl<K: Eq + Hash + Drop, V: Drop, H: BuildHasher + Default + Drop, A: Allocator + Copy> MadeWith<A>
    for HashTrieMap<K, V, H, A> {
    ghost is_made_with = { λ map. (map.entries ≡ []) × (map.degree ≡ 64) × H.is_default map.hasher };

    fn made_with(alloc: A) -> HashTrieMap<K, V, H, A> {
        HashTrieMap::new_with_hasher(alloc, H::default())
    }
}

/// The empty map of degree 64, for `mem::try_take`.
impl<K: Eq + Hash + Drop, V: Drop, H: BuildHasher + Default + Drop, A: Allocator + Copy> Emptied
    for HashTrieMap<K, V, H, A> {
    ghost is_emptied = { λ map. (map.entries ≡ []) × (map.degree ≡ 64) × H.is_default map.hasher };

    fn emptied(like: &HashTrieMap<K, V, H, A>) -> Result<HashTrieMap<K, V, H, A>, AllocError> {
        Ok(HashTrieMap::new_with_hasher(*like.allocator(), H::default()))
    }
}
