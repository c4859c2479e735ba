//! std's traits that make and fill a map by what an iterator gives, and make empty ones.
ghost use Rattle.std.specs.Prelude.{◌≡◌, ◌+◌, ◌≤◌, [], length, map};
ghost use Rattle.std.specs.Map.Iter.{deref_pair};
ghost use Rattle.rpds_red_black.specs.Logarithm.{floor_log2, most_levels};
ghost use Rattle.rpds_red_black.specs.Pairs.{put_all};

use crate::map::red_black_tree_map::RedBlackTreeMap;
use std::alloc::{AllocError, Allocator};
use std::default::{Emptied, MadeWith};
use std::iter::{Extend, FromIterator};

/// `collect`: each pair is put into the map of those before it.
impl<K: Ord + Drop, V: Drop, A: Allocator + Copy> FromIterator<(K, V)>
    for RedBlackTreeMap<K, V, A> {
    type Alloc = A;

    ghost from_iter_gives = { λ pairs map. (map.entries ≡ put_all K.cmp [] pairs) × (map.depth ≤ most_levels (length map.entries)) × (map.depth ≤ floor_log2 (length map.entries) + 1) };

    fn from_iter<U: IntoIterator<Item = (K, V)>>(
        alloc: A,
        iter: U,
    ) -> Result<RedBlackTreeMap<K, V, A>, AllocError> {
        RedBlackTreeMap::from_iter(alloc, iter)
    }
}

/// `extend` by the trait is [`RedBlackTreeMap::extend`](RedBlackTreeMap::extend): an error leaves the map as it is.
impl<K: Ord + Drop, V: Drop, A: Allocator + Copy> Extend<(K, V)> for RedBlackTreeMap<K, V, A> {
    ghost extend_gives = { λ map more longer. longer.entries ≡ put_all K.cmp map.entries more };

    fn extend<U: IntoIterator<Item = (K, V)>>(&mut self, iter: U) -> Result<(), AllocError> {
        let pairs = iter.into_iter();
        RedBlackTreeMap::extend(self, pairs)
    }
}

/// The same of what references lead to.
impl<'a, K: Copy + Ord + Drop + 'a, V: Copy + Drop + 'a, A: Allocator + Copy> Extend<(&'a K, &'a V)>
    for RedBlackTreeMap<K, V, A> {
    ghost extend_gives = { λ old more new. new.entries ≡ put_all K.cmp old.entries (map deref_pair more) };

    fn extend<U: IntoIterator<Item = (&'a K, &'a V)>>(
        &mut self,
        iter: U,
    ) -> Result<(), AllocError> {
        let pairs = iter.into_iter();
        self.extend_copied(pairs)
    }
}

/// The empty map, for `or_default` of std's maps.
impl<K: Ord + Drop, V: Drop, A: Allocator + Copy> MadeWith<A> for RedBlackTreeMap<K, V, A> {
    ghost is_made_with = { λ map. map.entries ≡ [] };

    fn made_with(alloc: A) -> RedBlackTreeMap<K, V, A> {
        RedBlackTreeMap::new(alloc)
    }
}

/// The empty map, for `mem::try_take`.
impl<K: Ord + Drop, V: Drop, A: Allocator + Copy> Emptied for RedBlackTreeMap<K, V, A> {
    ghost is_emptied = { λ map. map.entries ≡ [] };

    fn emptied(like: &RedBlackTreeMap<K, V, A>) -> Result<RedBlackTreeMap<K, V, A>, AllocError> {
        Ok(RedBlackTreeMap::new(*like.allocator()))
    }
}
