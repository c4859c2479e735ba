//! std's traits that make and fill a set by what an iterator gives, and make empty ones.
ghost use Rattle.std.specs.Prelude.{◌≡◌, ◌++◌, [], map, reverse};
ghost use Rattle.rpds_hash.specs.HashedSet.{HoldLast, find_member};

use crate::set::hash_trie_set::HashTrieSet;
use std::alloc::{AllocError, Allocator};
use std::default::{Emptied, MadeWith};
use std::hash::{BuildHasher, Hash};
use std::iter::{Extend, FromIterator};

/// `collect`: of items that are equal the last is kept. The degree is 64.
impl<T: Eq + Hash + Drop, H: BuildHasher + Default + Drop, A: Allocator + Copy> FromIterator<T>
    for HashTrieSet<T, H, A> {
    type Alloc = A;

    ghost from_iter_gives = { λ items set. HoldLast T.eq items set.members × (set.degree ≡ 64) × H.is_default set.hasher };

    fn from_iter<U: IntoIterator<Item = T>>(
        alloc: A,
        iter: U,
    ) -> Result<HashTrieSet<T, H, A>, AllocError> {
        HashTrieSet::from_iter(alloc, iter)
    }
}

/// `extend` by the trait is [`HashTrieSet::extend`](HashTrieSet::extend): an error leaves the set as it is.
impl<T: Eq + Hash + Drop, H: BuildHasher + Clone + Drop, A: Allocator + Copy> Extend<T>
    for HashTrieSet<T, H, A> {
    ghost can_extend = { λ _ _. (x y : H) → H.is_clone x y → y ≡ x };

    ghost extend_gives = { λ set more longer. ((x : T) → find_member T.eq x longer.members ≡ find_member T.eq x (reverse more ++ set.members)) × (longer ≡ record set { members = longer.members }) };

    fn extend<U: IntoIterator<Item = T>>(&mut self, iter: U) -> Result<(), AllocError> {
        let items = iter.into_iter();
        HashTrieSet::extend(self, items)
    }
}

/// The same of what references lead to.
impl<
    'a,
    T: Copy + Eq + Hash + Drop + 'a,
    H: BuildHasher + Clone + Drop,
    A: Allocator + Copy,
> Extend<&'a T> for HashTrieSet<T, H, A> {
    ghost can_extend = { λ _ _. (x y : H) → H.is_clone x y → y ≡ x };

    ghost extend_gives = { λ set more longer. ((x : T) → find_member T.eq x longer.members ≡ find_member T.eq x (reverse (map (λ y. y.now) more) ++ set.members)) × (longer ≡ record set { members = longer.members }) };

    fn extend<U: IntoIterator<Item = &'a T>>(&mut self, iter: U) -> Result<(), AllocError> {
        let items = iter.into_iter();
        HashTrieSet::extend(self, items.copied())
    }
}

/// The empty set of degree 64, for `or_default` of std's maps.
impl<T: Eq + Hash + Drop, H: BuildHasher + Default + Drop, A: Allocator + Copy> MadeWith<A>
    for HashTrieSet<T, H, A> {
    ghost is_made_with = { λ set. (set.members ≡ []) × (set.degree ≡ 64) × H.is_default set.hasher };

    fn made_with(alloc: A) -> HashTrieSet<T, H, A> {
        HashTrieSet::new_with_hasher(alloc, H::default())
    }
}

/// The empty set of degree 64, for `mem::try_take`.
impl<T: Eq + Hash + Drop, H: BuildHasher + Default + Drop, A: Allocator + Copy> Emptied
    for HashTrieSet<T, H, A> {
    ghost is_emptied = { λ set. (set.members ≡ []) × (set.degree ≡ 64) × H.is_default set.hasher };

    fn emptied(like: &HashTrieSet<T, H, A>) -> Result<HashTrieSet<T, H, A>, AllocError> {
        Ok(HashTrieSet::new_with_hasher(*like.allocator(), H::default()))
    }
}
