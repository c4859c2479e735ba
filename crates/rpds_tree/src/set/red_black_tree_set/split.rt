//! A set cut in two at a value, its subranges as sets of their own, and one set after another.
ghost use Rattle.std.specs.Prelude.{◌≡◌, ◌≢◌, ◌+◌, ◌*◌, ◌<◌, ◌≤◌, ◌++◌, [], max, IfOk, length};
ghost use Rattle.std.specs.Option.{option_copied};
ghost use Rattle.std.specs.Range.Bound.{bound_map};
ghost use Rattle.std.specs.declared.ops.Bound.TheVariants.{Excluded, Unbounded};
ghost use Rattle.rpds_core.specs.Counts.{IsWithin};
ghost use Rattle.rpds_red_black.specs.Logarithm.{most_levels};
ghost use Rattle.rpds_tree.specs.OrderedSet.{find_member, members_outside_forms, members_within_forms};
ghost use Rattle.rpds_tree.specs.Sorted.{first_out_of_order, reported_position};

use crate::set::red_black_tree_set::RedBlackTreeSet;
use crate::sorted::SortedError;
use rpds_core::key::OrdKey;
use rpds_core::steps::Steps;
use std::alloc::{AllocError, Allocator, Global};
use std::ops::Bound;

/// What a set is cut into at a value.
#[derive(Drop)]
#[must_use = "a cut returns two new sets, and leaves the old one as it is"]
pub struct Split<'a, T: Ord, A: Allocator = Global> {
    /// The members below it.
    pub below: RedBlackTreeSet<T, A>,
    /// The member that is equal to it, if there is one.
    pub at: Option<&'a T>,
    /// The members above it.
    pub above: RedBlackTreeSet<T, A>,
}

#[tactic(auto, using(crate::proofs::Members::member_rules))]
impl<T: Ord + Drop, A: Allocator + Copy> RedBlackTreeSet<T, A> {
    /// The set cut in two at a value. It costs what the map's [`split`](crate::map::red_black_tree_map::RedBlackTreeMap::split) costs. The
    /// error means that memory ran out.
    pub fn split<Q: OrdKey<T>>(&self, value: Q) -> Result<Split<'_, T, A>, AllocError>
        ensures below { IfOk result (λ s.
            s.below.members ≡ members_within_forms Q.order Q.turned Unbounded (Excluded (Q.seen value)) self.now.members) }
        ensures at { IfOk result (λ s.
            option_copied s.at ≡ find_member Q.order (Q.seen value) self.now.members) }
        ensures above { IfOk result (λ s.
            s.above.members ≡ members_within_forms Q.order Q.turned (Excluded (Q.seen value)) Unbounded self.now.members) }
    {
        self.split_counted(value, &mut Steps::new())
    }

    /// [`split`](RedBlackTreeSet::split), which counts the members that it compares and the nodes that it makes.
    pub fn split_counted<Q: OrdKey<T>>(
        &self,
        value: Q,
        steps: &mut Steps,
    ) -> Result<Split<'_, T, A>, AllocError>
        ensures below { IfOk result (λ s.
            s.below.members ≡ members_within_forms Q.order Q.turned Unbounded (Excluded (Q.seen value)) self.now.members) }
        ensures at { IfOk result (λ s.
            option_copied s.at ≡ find_member Q.order (Q.seen value) self.now.members) }
        ensures above { IfOk result (λ s.
            s.above.members ≡ members_within_forms Q.order Q.turned (Excluded (Q.seen value)) Unbounded self.now.members) }
        ensures steps { let levels = most_levels (length self.now.members) in
            IsWithin levels (4 * levels) steps.old steps.new }
        ensures compares { self.now.members ≢ [] → steps.old.compared < steps.new.compared }
    {
        let split = self.map.split_counted(value, steps)?;
        let at = match split.at {
            Some((member, _)) => Some(member),
            None => None,
        };
        Ok(Split {
            below: RedBlackTreeSet { map: split.below },
            at,
            above: RedBlackTreeSet { map: split.above },
        })
    }

    /// The members within the bounds, as a set of their own: what [`range`](RedBlackTreeSet::range) gives. It costs what the map's
    /// [`subrange`](crate::map::red_black_tree_map::RedBlackTreeMap::subrange) costs. The error means that memory ran out.
    pub fn subrange<Q: OrdKey<T>>(
        &self,
        start: Bound<Q>,
        end: Bound<Q>,
    ) -> Result<RedBlackTreeSet<T, A>, AllocError>
        ensures ok { IfOk result (λ s. s.members
            ≡ members_within_forms Q.order Q.turned (bound_map Q.seen start) (bound_map Q.seen end) self.now.members) }
        ensures depth { IfOk result (λ s. s.depth ≤ most_levels (length s.members)) }
    {
        self.subrange_counted(start, end, &mut Steps::new())
    }

    /// [`subrange`](RedBlackTreeSet::subrange), which counts the members that it compares and the nodes that it makes.
    pub fn subrange_counted<Q: OrdKey<T>>(
        &self,
        start: Bound<Q>,
        end: Bound<Q>,
        steps: &mut Steps,
    ) -> Result<RedBlackTreeSet<T, A>, AllocError>
        ensures ok { IfOk result (λ s. s.members
            ≡ members_within_forms Q.order Q.turned (bound_map Q.seen start) (bound_map Q.seen end) self.now.members) }
        ensures depth { IfOk result (λ s. s.depth ≤ most_levels (length s.members)) }
        ensures steps { let levels = most_levels (length self.now.members) in
            IsWithin (2 * levels) (10 * levels + 4) steps.old steps.new }
    {
        let map = self.map.subrange_counted(start, end, steps)?;
        Ok(RedBlackTreeSet { map })
    }

    /// The members outside the bounds: what [`subrange`](RedBlackTreeSet::subrange) leaves out. It costs what the map's
    /// [`without_range`](crate::map::red_black_tree_map::RedBlackTreeMap::without_range) costs. The error means that memory ran out.
    pub fn without_range<Q: OrdKey<T>>(
        &self,
        start: Bound<Q>,
        end: Bound<Q>,
    ) -> Result<RedBlackTreeSet<T, A>, AllocError>
        ensures ok { IfOk result (λ s. s.members
            ≡ members_outside_forms Q.order Q.turned (bound_map Q.seen start) (bound_map Q.seen end) self.now.members) }
        ensures depth { IfOk result (λ s. s.depth ≤ most_levels (length s.members)) }
    {
        self.without_range_counted(start, end, &mut Steps::new())
    }

    /// [`without_range`](RedBlackTreeSet::without_range), which counts the members that it compares and the nodes that it makes.
    pub fn without_range_counted<Q: OrdKey<T>>(
        &self,
        start: Bound<Q>,
        end: Bound<Q>,
        steps: &mut Steps,
    ) -> Result<RedBlackTreeSet<T, A>, AllocError>
        ensures ok { IfOk result (λ s. s.members
            ≡ members_outside_forms Q.order Q.turned (bound_map Q.seen start) (bound_map Q.seen end) self.now.members) }
        ensures depth { IfOk result (λ s. s.depth ≤ most_levels (length s.members)) }
        ensures steps { let levels = most_levels (length self.now.members) in
            IsWithin (2 * levels) (15 * levels + 7) steps.old steps.new }
    {
        let map = self.map.without_range_counted(start, end, steps)?;
        Ok(RedBlackTreeSet { map })
    }

    /// The members of this set and then those of the other one, which are all above. It compares one member, and makes nodes on
    /// one path. Its errors are those of the map's [`append`](crate::map::red_black_tree_map::RedBlackTreeMap::append).
    pub fn append(
        &self,
        other: &RedBlackTreeSet<T, A>,
    ) -> Result<RedBlackTreeSet<T, A>, SortedError>
        ensures ok { IfOk result (λ s. s.members ≡ self.now.members ++ other.now.members) }
        ensures out_of_order { reported_position result
            ≡ first_out_of_order T.cmp (self.now.members ++ other.now.members) }
        ensures depth { IfOk result (λ s. s.depth ≤ most_levels (length s.members)) }
    {
        self.append_counted(other, &mut Steps::new())
    }

    /// [`append`](RedBlackTreeSet::append), which counts the members that it compares and the nodes that it makes.
    pub fn append_counted(
        &self,
        other: &RedBlackTreeSet<T, A>,
        steps: &mut Steps,
    ) -> Result<RedBlackTreeSet<T, A>, SortedError>
        ensures ok { IfOk result (λ s. s.members ≡ self.now.members ++ other.now.members) }
        ensures out_of_order { reported_position result
            ≡ first_out_of_order T.cmp (self.now.members ++ other.now.members) }
        ensures depth { IfOk result (λ s. s.depth ≤ most_levels (length s.members)) }
        ensures steps { let most = most_levels (max (length self.now.members) (length other.now.members)) in
            IsWithin 1 (5 * most + 3) steps.old steps.new }
    {
        let map = self.map.append_counted(&other.map, steps)?;
        Ok(RedBlackTreeSet { map })
    }
}
