//! The iterator over a whole set, from both ends.
ghost use Rattle.std.specs.Prelude.{◌≡◌};
ghost use Rattle.std.specs.Map.Iter.{ShowsInOrder, ShowsInReverse, deref};
ghost use Rattle.rpds_tree.specs.OrderedSet.{IsOrderedSet};

use crate::map::red_black_tree_map::IterKeys;
use crate::set::red_black_tree_set::RedBlackTreeSet;
use std::alloc::{Allocator, Global};

/// The members of a set in order: the iterator over the keys of its map.
pub type Iter<'a, T, A = Global> = IterKeys<'a, T, (), A>;

#[tactic(auto, using(crate::proofs::Members::member_rules))]
impl<T: Ord, A: Allocator> RedBlackTreeSet<T, A> {
    /// The members, from the least to the greatest, or back from the greatest.
    #[inline(always)]
    pub fn iter(&self) -> Iter<'_, T, A>
        ensures rest { result ≡ self.now.members }
        ensures ordered { IsOrderedSet T.cmp self.now }

        // `next` gives them in this order, and `next_back` in the other.
        ensures runs { ShowsInOrder (deref {X = T}) }
        ensures runs_back { ShowsInReverse (deref {X = T}) }
    {
        self.map.keys()
    }
}

impl<'a, T: Ord, A: Allocator> IntoIterator for &'a RedBlackTreeSet<T, A> {
    type Item = &'a T;

    type IntoIter = Iter<'a, T, A>;

    ghost into_iter_gives = { λ s it. (it ≡ s.now.members)
        × ShowsInOrder (deref {X = T}) × ShowsInReverse (deref {X = T})
        × IsOrderedSet T.cmp s.now };

    fn into_iter(self) -> Iter<'a, T, A> {
        RedBlackTreeSet::iter(self)
    }
}
