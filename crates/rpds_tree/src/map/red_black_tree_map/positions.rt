//! Pairs and their positions in the order of the keys, by the counts of pairs that the links hold.
ghost use Rattle.std.specs.Prelude.{◌≡◌, ◌≢◌, ◌+◌, ◌*◌, ◌<◌, ◌≤◌, [], length, slice_get};
ghost use Rattle.std.specs.Map.Iter.{deref_pair};
ghost use Rattle.std.specs.Option.{option_map};
ghost use Rattle.std.specs.Range.Bound.{bound_map};
ghost use Rattle.std.specs.declared.ops.Bound.TheVariants.{Unbounded};
ghost use Rattle.rpds_red_black.specs.Logarithm.{most_levels};
ghost use Rattle.rpds_red_black.specs.Positions.{rank};
ghost use Rattle.rpds_red_black.specs.Ranges.{within_forms};

use crate::map::red_black_tree_map::RedBlackTreeMap;
use rpds_core::key::OrdKey;
use rpds_core::steps::Steps;
use rpds_red_black::walk::{Backward, Forward};
use std::alloc::Allocator;
use std::ops::Bound;

impl<K: Ord, V, A: Allocator> RedBlackTreeMap<K, V, A> {
    /// The pair at the position in the order of the keys, counted from 0.
    pub fn nth(&self, position: usize) -> Option<(&K, &V)>
        ensures { option_map deref_pair result ≡ slice_get self.now.entries position }
    {
        self.nth_counted(position, &mut Steps::new())
    }

    /// [`nth`](RedBlackTreeMap::nth), which adds one to `visited` for each node that it enters: at least one where there is a
    /// pair, and at most one on each level.
    pub fn nth_counted(&self, position: usize, steps: &mut Steps) -> Option<(&K, &V)>
        ensures found { option_map deref_pair result ≡ slice_get self.now.entries position }

        ensures visited { steps.new.visited ≤ steps.old.visited + self.now.depth }
        ensures least { steps.old.visited ≤ steps.new.visited }
        ensures enters { self.now.entries ≢ [] → steps.old.visited < steps.new.visited }
        ensures depth { self.now.depth ≤ most_levels (length self.now.entries) }
        ensures others { steps.new ≡ record steps.old { visited = steps.new.visited } }
    {
        self.tree.nth(self.size, position, steps)
    }

    /// How many keys are below the key: the position of an equal key, and where there is none, of the next one above it.
    pub fn rank<Q: OrdKey<K>>(&self, key: Q) -> usize
        ensures { result ≡ rank Q.turned (Q.seen key) self.now.entries }
    {
        self.rank_counted(key, &mut Steps::new())
    }

    /// [`rank`](RedBlackTreeMap::rank), which adds one to `compared` for each key that it compares: at least one where there
    /// is a pair, and at most one on each level.
    pub fn rank_counted<Q: OrdKey<K>>(&self, key: Q, steps: &mut Steps) -> usize
        ensures rank { result ≡ rank Q.turned (Q.seen key) self.now.entries }

        ensures compared { steps.new.compared ≤ steps.old.compared + self.now.depth }
        ensures least { steps.old.compared ≤ steps.new.compared }
        ensures compares { self.now.entries ≢ [] → steps.old.compared < steps.new.compared }
        ensures depth { self.now.depth ≤ most_levels (length self.now.entries) }
        ensures others { steps.new ≡ record steps.old { compared = steps.new.compared } }
    {
        self.tree
            .count_outside::<Forward, Q>(self.size, &Bound::Included(key), steps)
    }

    /// How many pairs there are whose keys are within the bounds, without a walk over them. Bounds that don't fit, as
    /// [`range_fits`](RedBlackTreeMap::range_fits) tests, have none between them.
    pub fn range_len<Q: OrdKey<K>>(&self, start: Bound<Q>, end: Bound<Q>) -> usize
        ensures { result ≡ length (within_forms Q.order Q.turned (bound_map Q.seen start) (bound_map Q.seen end) self.now.entries) }
    {
        self.range_len_counted(start, end, &mut Steps::new())
    }

    /// [`range_len`](RedBlackTreeMap::range_len), which adds one to `compared` for each key that it compares: at least one
    /// where there is a pair and a bound, and at most two on each level.
    pub fn range_len_counted<Q: OrdKey<K>>(
        &self,
        start: Bound<Q>,
        end: Bound<Q>,
        steps: &mut Steps,
    ) -> usize
        ensures count { result
            ≡ length (within_forms Q.order Q.turned (bound_map Q.seen start) (bound_map Q.seen end) self.now.entries) }

        ensures compared { steps.new.compared ≤ steps.old.compared + 2 * self.now.depth }
        ensures least { steps.old.compared ≤ steps.new.compared }
        ensures compares_start { bound_map Q.seen start ≢ Unbounded → self.now.entries ≢ []
            → steps.old.compared < steps.new.compared }
        ensures compares_end { bound_map Q.seen end ≢ Unbounded → self.now.entries ≢ []
            → steps.old.compared < steps.new.compared }
        ensures depth { self.now.depth ≤ most_levels (length self.now.entries) }
        ensures others { steps.new ≡ record steps.old { compared = steps.new.compared } }
    {
        let before = self
            .tree
            .count_outside::<Forward, Q>(self.size, &start, steps);
        let after = self
            .tree
            .count_outside::<Backward, Q>(self.size, &end, steps);
        self.size.saturating_sub(before).saturating_sub(after)
    }
}
