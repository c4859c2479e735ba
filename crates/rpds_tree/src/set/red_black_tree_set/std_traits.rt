//! std's traits that make and fill a set by what an iterator gives, and make empty ones.
ghost use Rattle.std.specs.Prelude.{◌≡◌, ◌+◌, ◌≤◌, [], length, map};
ghost use Rattle.rpds_red_black.specs.Logarithm.{floor_log2, most_levels};
ghost use Rattle.rpds_tree.specs.OrderedSet.{put_members};

use crate::set::red_black_tree_set::RedBlackTreeSet;
use std::alloc::{AllocError, Allocator};
use std::default::{Emptied, MadeWith};
use std::iter::{Extend, FromIterator};

/// `collect`: each item is put into the set of those before it.
impl<T: Ord + Drop, A: Allocator + Copy> FromIterator<T> for RedBlackTreeSet<T, A> {
    type Alloc = A;

    ghost from_iter_gives = { λ items set. (set.members ≡ put_members T.cmp [] items) × (set.depth ≤ most_levels (length set.members)) × (set.depth ≤ floor_log2 (length set.members) + 1) };

    fn from_iter<U: IntoIterator<Item = T>>(
        alloc: A,
        iter: U,
    ) -> Result<RedBlackTreeSet<T, A>, AllocError> {
        RedBlackTreeSet::from_iter(alloc, iter)
    }
}

/// `extend` by the trait is [`RedBlackTreeSet::extend`](RedBlackTreeSet::extend): an error leaves the set as it is.
impl<T: Ord + Drop, A: Allocator + Copy> Extend<T> for RedBlackTreeSet<T, A> {
    ghost extend_gives = { λ set more longer. longer.members ≡ put_members T.cmp set.members more };

    fn extend<U: IntoIterator<Item = T>>(&mut self, iter: U) -> Result<(), AllocError> {
        let items = iter.into_iter();
        RedBlackTreeSet::extend(self, items)
    }
}

/// The same of what references lead to.
impl<'a, T: Copy + Ord + Drop + 'a, A: Allocator + Copy> Extend<&'a T> for RedBlackTreeSet<T, A> {
    ghost extend_gives = { λ set more longer. longer.members ≡ put_members T.cmp set.members (map (λ x. x.now) more) };

    fn extend<U: IntoIterator<Item = &'a T>>(&mut self, iter: U) -> Result<(), AllocError> {
        let items = iter.into_iter();
        RedBlackTreeSet::extend(self, items.copied())
    }
}

/// The empty set, for `or_default` of std's maps.
impl<T: Ord + Drop, A: Allocator + Copy> MadeWith<A> for RedBlackTreeSet<T, A> {
    ghost is_made_with = { λ set. set.members ≡ [] };

    fn made_with(alloc: A) -> RedBlackTreeSet<T, A> {
        RedBlackTreeSet::new(alloc)
    }
}

/// The empty set, for `mem::try_take`.
impl<T: Ord + Drop, A: Allocator + Copy> Emptied for RedBlackTreeSet<T, A> {
    ghost is_emptied = { λ set. set.members ≡ [] };

    fn emptied(like: &RedBlackTreeSet<T, A>) -> Result<RedBlackTreeSet<T, A>, AllocError> {
        Ok(RedBlackTreeSet::new(*like.allocator()))
    }
}
