//! The iterator over the part of a set between two bounds, from both ends.
ghost use Rattle.std.specs.Prelude.{◌≡◌, IfSome, IsTrue, None, length, ⊤};
ghost use Rattle.std.specs.Iterator.{at_most, UpTo};
ghost use Rattle.std.specs.Iterator.SizeHint.{IsWithinCount};
ghost use Rattle.std.specs.Map.Iter.{TakesFirst, TakesLast, ShowsInOrder, ShowsInReverse, deref};
ghost use Rattle.std.specs.Range.Bound.{bound_map};
ghost use Rattle.rpds_tree.specs.OrderedSet.{IsOrderedSet, members_within, members_within_forms};
ghost use Rattle.rpds_red_black.specs.Ranges.{bound_copied, fits};

use crate::map::red_black_tree_map::RangeIter as MapRangeIter;
use crate::set::red_black_tree_set::RedBlackTreeSet;
use rpds_core::key::OrdKey;
use std::alloc::{AllocError, Allocator, Global};
use std::iter::FusedIterator;
use std::marker::Model;
use std::ops::{Bound, RangeBounds};

/// The members between two bounds in order: the keys of the iterator over that part of its map.
#[derive(Drop)]
pub struct RangeIter<'a, T: Ord, A: Allocator = Global> {
    pairs: MapRangeIter<'a, T, (), A>,
}

impl<'a, T: Ord, A: Allocator> Model for RangeIter<'a, T, A> {
    ghost use Rattle.std.specs.Prelude.{List};
    ghost use Rattle.std.specs.Map.{keys_of};

    ghost Value = { List T };

    ghost view = { λ it. keys_of it.pairs };
}

impl<'a, T: Ord, A: Allocator> Iterator for RangeIter<'a, T, A> {
    type Item = &'a T;

    ghost next_gives = { TakesFirst deref };

    ghost remaining = { λ it. at_most (length it) };

    #[inline(always)]
    fn next(&mut self) -> Option<&'a T> {
        let (member, _) = self.pairs.next()?;
        Some(member)
    }

    /// How many members are left is not known.
    fn size_hint(&self) -> (usize, Option<usize>)
        ensures unknown { result ≡ (0, None) }
        ensures lower { IsWithinCount result.0 (at_most (length self.now)) }
        ensures upper { IfSome result.1 (UpTo (at_most (length self.now))) }
    {
        (0, None)
    }
}

impl<'a, T: Ord, A: Allocator> FusedIterator for RangeIter<'a, T, A> {}

impl<'a, T: Ord, A: Allocator> Clone for RangeIter<'a, T, A> {
    ghost is_clone = { λ it copy. copy ≡ it };

    ghost is_infallible = { λ _. ⊤ };

    fn clone(&self) -> Result<RangeIter<'a, T, A>, AllocError> {
        Ok(RangeIter {
            pairs: self.pairs.clone()?,
        })
    }
}

impl<'a, T: Ord, A: Allocator> DoubleEndedIterator for RangeIter<'a, T, A> {
    ghost next_back_gives = { TakesLast deref };

    #[inline(always)]
    fn next_back(&mut self) -> Option<&'a T> {
        let (member, _) = self.pairs.next_back()?;
        Some(member)
    }
}

#[tactic(auto, using(crate::proofs::Members::member_rules))]
impl<T: Ord, A: Allocator> RedBlackTreeSet<T, A> {
    /// The members within the bounds, from the least to the greatest, or back from the greatest.
    ///
    /// The bounds must fit, as `range_fits` tests. [`range_between`](RedBlackTreeSet::range_between) asks nothing of them, and
    /// takes any form of a member.
    #[inline(always)]
    pub fn range(&self, start: Bound<&T>, end: Bound<&T>) -> RangeIter<'_, T, A>
        requires fits { IsTrue (fits T.cmp (bound_copied start) (bound_copied end)) }
        ensures rest { result ≡ members_within T.cmp (bound_copied start.entry)
            (bound_copied end.entry) self.now.members }
        ensures ordered { IsOrderedSet T.cmp self.now }

        // `next` gives them in this order, and `next_back` in the other.
        ensures runs { ShowsInOrder (deref {X = T}) }
        ensures runs_back { ShowsInReverse (deref {X = T}) }
    {
        RangeIter {
            pairs: self.map.range(start, end),
        }
    }

    /// The [`range`](RedBlackTreeSet::range) between two bounds that are forms of members, as
    /// `set.range_between(Included("a"), Excluded("c"))`. It is empty where the start is above the end, or both exclude one member.
    #[inline(always)]
    pub fn range_between<Q: OrdKey<T>>(&self, start: Bound<Q>, end: Bound<Q>) -> RangeIter<'_, T, A>
        ensures rest { result
            ≡ members_within_forms Q.order Q.turned (bound_map Q.seen start) (bound_map Q.seen end) self.now.members }
        ensures ordered { IsOrderedSet T.cmp self.now }

        // `next` gives them in this order, and `next_back` in the other.
        ensures runs { ShowsInOrder (deref {X = T}) }
        ensures runs_back { ShowsInReverse (deref {X = T}) }
    {
        RangeIter {
            pairs: self.map.range_between(start, end),
        }
    }

    /// The [`range`](RedBlackTreeSet::range) of one of std's ranges, as `set.range_of(2..5)`. It is empty where its start is above
    /// its end, or where it was iterated to its end.
    pub fn range_of<R: RangeBounds<T> + Drop>(&self, bounds: R) -> RangeIter<'_, T, A>
        ensures rest { R.has_bounds bounds
            → result ≡ members_within T.cmp (R.start_bound bounds) (R.end_bound bounds) self.now.members }
        ensures ordered { IsOrderedSet T.cmp self.now }

        // `next` gives them in this order, and `next_back` in the other.
        ensures runs { ShowsInOrder (deref {X = T}) }
        ensures runs_back { ShowsInReverse (deref {X = T}) }
    {
        RangeIter {
            pairs: self.map.range_of(bounds),
        }
    }

    /// The [`range_of`](RedBlackTreeSet::range_of) one of std's ranges whose ends are forms of members, as
    /// `set.range_of_forms("a".."f")` of `String`s.
    pub fn range_of_forms<Q: OrdKey<T>, R: RangeBounds<Q> + Drop>(
        &self,
        bounds: R,
    ) -> RangeIter<'_, T, A>
        ensures rest { R.has_bounds bounds → result ≡ members_within_forms Q.order Q.turned
            (bound_map Q.seen (R.start_bound bounds)) (bound_map Q.seen (R.end_bound bounds)) self.now.members }
        ensures ordered { IsOrderedSet T.cmp self.now }

        // `next` gives them in this order, and `next_back` in the other.
        ensures runs { ShowsInOrder (deref {X = T}) }
        ensures runs_back { ShowsInReverse (deref {X = T}) }
    {
        RangeIter {
            pairs: self.map.range_of_forms(bounds),
        }
    }

    /// Whether `range` may be asked for these bounds: the start isn't above the end, and equal bounds aren't both
    /// excluded. What the set holds has no part in it.
    pub fn range_fits(&self, start: Bound<&T>, end: Bound<&T>) -> bool
        ensures { result ≡ fits T.cmp (bound_copied start.entry) (bound_copied end.entry) }
    {
        self.map.range_fits(start, end)
    }
}
