//! The pairs of a range, as an answer.
ghost use Rattle.std.specs.Prelude.{◌≡◌, Some, None, if◌then◌else◌};
ghost use Rattle.std.specs.Map.Iter.{ShowsInOrder, ShowsInReverse, deref_pair};
ghost use Rattle.rpds_tree.specs.Ranges.{fits, within};

use rpds_tree::map::red_black_tree_map::{RangeIter, RedBlackTreeMap};
use std::alloc::{Allocator, Global};
use std::marker::Model;
use std::ops::Bound;

/// The pairs of an ordered map between two bounds that fit. It borrows the map and the bounds of the question.
#[derive(Drop)]
pub struct Pairs<'a, K: Ord, V, A: Allocator = Global> {
    map: &'a RedBlackTreeMap<K, V, A>,
    start: &'a Bound<K>,
    end: &'a Bound<K>,
}

impl<'a, K: Ord, V, A: Allocator> Model for Pairs<'a, K, V, A> {
    ghost use Rattle.std.specs.Prelude.{List, IsTrue};
    ghost use Rattle.rpds_tree.specs.Ranges.{fits, within};

    ghost Value = { List (K × V) };

    ghost view = { λ p. within K.cmp p.start.now p.end.now p.map.now.entries };

    ghost invariant = { λ p. IsTrue (fits K.cmp p.start.now p.end.now) };
}

impl<'a, K: Ord, V, A: Allocator> Pairs<'a, K, V, A> {
    // The pairs between the bounds, or None where these don't fit.
    pub(crate) fn new(
        map: &'a RedBlackTreeMap<K, V, A>,
        start: &'a Bound<K>,
        end: &'a Bound<K>,
    ) -> Option<Pairs<'a, K, V, A>>
        ensures { result ≡ if fits K.cmp start.now end.now then Some
            (within K.cmp start.now end.now map.now.entries) else None }
    {
        if !map.range_fits(start.as_ref(), end.as_ref()) {
            return None;
        }
        Some(Pairs { map, start, end })
    }

    /// The pairs from the least key to the greatest, or back from the greatest. Takes no memory.
    pub fn iter(&self) -> RangeIter<'a, K, V, A>
        ensures rest { result ≡ self.now }

        // `next` gives them in this order, and `next_back` in the other.
        ensures runs { ShowsInOrder (deref_pair {K = K} {X = V}) }
        ensures runs_back { ShowsInReverse (deref_pair {K = K} {X = V}) }
    {
        self.map.range(self.start.as_ref(), self.end.as_ref())
    }
}

impl<'a, K: Ord, V, A: Allocator> IntoIterator for Pairs<'a, K, V, A> {
    type Item = (&'a K, &'a V);

    type IntoIter = RangeIter<'a, K, V, A>;

    ghost into_iter_gives = { λ pairs it. (it ≡ pairs)
        × ShowsInOrder (deref_pair {K = K} {X = V}) × ShowsInReverse (deref_pair {K = K} {X = V}) };

    fn into_iter(self) -> RangeIter<'a, K, V, A> {
        self.iter()
    }
}
