//! Members and their positions in order.
ghost use Rattle.std.specs.Prelude.{◌≡◌, ◌≢◌, ◌+◌, ◌*◌, ◌<◌, ◌≤◌, [], length, slice_get};
ghost use Rattle.std.specs.Option.{option_copied};
ghost use Rattle.std.specs.Range.Bound.{bound_map};
ghost use Rattle.std.specs.declared.ops.Bound.TheVariants.{Unbounded};
ghost use Rattle.rpds_red_black.specs.Logarithm.{most_levels};
ghost use Rattle.rpds_tree.specs.OrderedSet.{members_within_forms};
ghost use Rattle.rpds_red_black.specs.Positions.{rank_member};

use crate::set::red_black_tree_set::RedBlackTreeSet;
use rpds_core::key::OrdKey;
use rpds_core::steps::Steps;
use std::alloc::Allocator;
use std::ops::Bound;

#[tactic(auto, using(crate::proofs::Members::member_rules))]
impl<T: Ord, A: Allocator> RedBlackTreeSet<T, A> {
    /// The member at the position in order, counted from 0.
    pub fn nth(&self, position: usize) -> Option<&T>
        ensures { option_copied result ≡ slice_get self.now.members position }
    {
        self.nth_counted(position, &mut Steps::new())
    }

    /// [`nth`](RedBlackTreeSet::nth), which adds one to `visited` for each node that it enters: at least one where there is a
    /// member, and at most one on each level.
    pub fn nth_counted(&self, position: usize, steps: &mut Steps) -> Option<&T>
        ensures found { option_copied result ≡ slice_get self.now.members position }

        ensures visited { steps.new.visited ≤ steps.old.visited + self.now.depth }
        ensures least { steps.old.visited ≤ steps.new.visited }
        ensures enters { self.now.members ≢ [] → steps.old.visited < steps.new.visited }
        ensures depth { self.now.depth ≤ most_levels (length self.now.members) }
        ensures others { steps.new ≡ record steps.old { visited = steps.new.visited } }
    {
        let (member, _) = self.map.nth_counted(position, steps)?;
        Some(member)
    }

    /// How many members are below the value: the position of an equal one, and where there is none, of the next one above it.
    pub fn rank<Q: OrdKey<T>>(&self, value: Q) -> usize
        ensures { result ≡ rank_member Q.turned (Q.seen value) self.now.members }
    {
        self.rank_counted(value, &mut Steps::new())
    }

    /// [`rank`](RedBlackTreeSet::rank), which adds one to `compared` for each member that it compares: at least one where
    /// there is a member, and at most one on each level.
    pub fn rank_counted<Q: OrdKey<T>>(&self, value: Q, steps: &mut Steps) -> usize
        ensures rank { result ≡ rank_member Q.turned (Q.seen value) self.now.members }

        ensures compared { steps.new.compared ≤ steps.old.compared + self.now.depth }
        ensures least { steps.old.compared ≤ steps.new.compared }
        ensures compares { self.now.members ≢ [] → steps.old.compared < steps.new.compared }
        ensures depth { self.now.depth ≤ most_levels (length self.now.members) }
        ensures others { steps.new ≡ record steps.old { compared = steps.new.compared } }
    {
        self.map.rank_counted(value, steps)
    }

    /// How many members are within the bounds, without a walk over them. Bounds that don't fit, as
    /// [`range_fits`](RedBlackTreeSet::range_fits) tests, have none between them.
    pub fn range_len<Q: OrdKey<T>>(&self, start: Bound<Q>, end: Bound<Q>) -> usize
        ensures { result ≡ length (members_within_forms Q.order Q.turned (bound_map Q.seen start) (bound_map Q.seen end) self.now.members) }
    {
        self.range_len_counted(start, end, &mut Steps::new())
    }

    /// [`range_len`](RedBlackTreeSet::range_len), which adds one to `compared` for each member that it compares: at least
    /// one where there is a member and a bound, and at most two on each level.
    pub fn range_len_counted<Q: OrdKey<T>>(
        &self,
        start: Bound<Q>,
        end: Bound<Q>,
        steps: &mut Steps,
    ) -> usize
        ensures count { result
            ≡ length (members_within_forms Q.order Q.turned (bound_map Q.seen start) (bound_map Q.seen end) self.now.members) }

        ensures compared { steps.new.compared ≤ steps.old.compared + 2 * self.now.depth }
        ensures least { steps.old.compared ≤ steps.new.compared }
        ensures compares_start { bound_map Q.seen start ≢ Unbounded → self.now.members ≢ []
            → steps.old.compared < steps.new.compared }
        ensures compares_end { bound_map Q.seen end ≢ Unbounded → self.now.members ≢ []
            → steps.old.compared < steps.new.compared }
        ensures depth { self.now.depth ≤ most_levels (length self.now.members) }
        ensures others { steps.new ≡ record steps.old { compared = steps.new.compared } }
    {
        self.map.range_len_counted(start, end, steps)
    }
}
