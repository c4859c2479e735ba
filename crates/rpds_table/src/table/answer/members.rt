//! The members of a range, as an answer.
ghost use Rattle.std.specs.Prelude.{◌≡◌, Some, None, if◌then◌else◌};
ghost use Rattle.std.specs.Map.Iter.{ShowsInOrder, ShowsInReverse, deref};
ghost use Rattle.rpds_tree.specs.OrderedSet.{members_within};
ghost use Rattle.rpds_tree.specs.Ranges.{fits};

use rpds_tree::set::red_black_tree_set::{RangeIter, RedBlackTreeSet};
use std::alloc::{Allocator, Global};
use std::marker::Model;
use std::ops::Bound;

/// The members of an ordered set between two bounds that fit. It borrows the set and the bounds of the question.
#[derive(Drop)]
pub struct Members<'a, K: Ord, A: Allocator = Global> {
    set: &'a RedBlackTreeSet<K, A>,
    start: &'a Bound<K>,
    end: &'a Bound<K>,
}

impl<'a, K: Ord, A: Allocator> Model for Members<'a, K, A> {
    ghost use Rattle.std.specs.Prelude.{List, IsTrue};
    ghost use Rattle.rpds_tree.specs.OrderedSet.{members_within};
    ghost use Rattle.rpds_tree.specs.Ranges.{fits};

    ghost Value = { List K };

    ghost view = { λ m. members_within K.cmp m.start.now m.end.now m.set.now.members };

    ghost invariant = { λ m. IsTrue (fits K.cmp m.start.now m.end.now) };
}

impl<'a, K: Ord, A: Allocator> Members<'a, K, A> {
    // The members between the bounds, or None where these don't fit.
    pub(crate) fn new(
        set: &'a RedBlackTreeSet<K, A>,
        start: &'a Bound<K>,
        end: &'a Bound<K>,
    ) -> Option<Members<'a, K, A>>
        ensures { result ≡ if fits K.cmp start.now end.now then Some
            (members_within K.cmp start.now end.now set.now.members) else None }
    {
        if !set.range_fits(start.as_ref(), end.as_ref()) {
            return None;
        }
        Some(Members { set, start, end })
    }

    /// The members from the least to the greatest, or back from the greatest. Takes no memory.
    pub fn iter(&self) -> RangeIter<'a, K, A>
        ensures rest { result ≡ self.now }

        // `next` gives them in this order, and `next_back` in the other.
        ensures runs { ShowsInOrder (deref {X = K}) }
        ensures runs_back { ShowsInReverse (deref {X = K}) }
    {
        self.set.range(self.start.as_ref(), self.end.as_ref())
    }
}

impl<'a, K: Ord, A: Allocator> IntoIterator for Members<'a, K, A> {
    type Item = &'a K;

    type IntoIter = RangeIter<'a, K, A>;

    ghost into_iter_gives = { λ members it. (it ≡ members)
        × ShowsInOrder (deref {X = K}) × ShowsInReverse (deref {X = K}) };

    fn into_iter(self) -> RangeIter<'a, K, A> {
        self.iter()
    }
}
