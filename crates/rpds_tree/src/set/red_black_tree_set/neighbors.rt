//! The members next to a value.
ghost use Rattle.std.specs.Prelude.{◌≡◌, ◌≢◌, ◌+◌, ◌<◌, ◌≤◌, [], length};
ghost use Rattle.std.specs.Option.{option_copied};
ghost use Rattle.rpds_red_black.specs.Logarithm.{most_levels};
ghost use Rattle.rpds_tree.specs.OrderedSet.{IsOrderedSet, ceiling_member_form, floor_member_form};

use crate::set::red_black_tree_set::RedBlackTreeSet;
use rpds_core::key::OrdKey;
use rpds_core::steps::Steps;
use std::alloc::Allocator;

#[tactic(auto, using(crate::proofs::Members::member_rules))]
impl<T: Ord, A: Allocator> RedBlackTreeSet<T, A> {
    /// The greatest member at or below the value, by one path down.
    pub fn floor<Q: OrdKey<T>>(&self, value: Q) -> Option<&T>
        ensures last { option_copied result ≡ floor_member_form Q.order Q.turned (Q.seen value) self.now.members }
        ensures ordered { IsOrderedSet T.cmp self.now }
    {
        self.floor_counted(value, &mut Steps::new())
    }

    /// [`floor`](RedBlackTreeSet::floor), which adds one to `compared` for each member that it compares: at least one where
    /// there is a member, and at most one on each level.
    pub fn floor_counted<Q: OrdKey<T>>(&self, value: Q, steps: &mut Steps) -> Option<&T>
        ensures last { option_copied result ≡ floor_member_form Q.order Q.turned (Q.seen value) self.now.members }
        ensures ordered { IsOrderedSet T.cmp self.now }

        ensures compared { steps.new.compared ≤ steps.old.compared + self.now.depth }
        ensures least { steps.old.compared ≤ steps.new.compared }
        ensures compares { self.now.members ≢ [] → steps.old.compared < steps.new.compared }
        ensures depth { self.now.depth ≤ most_levels (length self.now.members) }
        ensures others { steps.new ≡ record steps.old { compared = steps.new.compared } }
    {
        match self.map.floor_counted(value, steps) {
            Some((member, _)) => Some(member),
            None => None,
        }
    }

    /// The least member at or above the value, by one path down.
    pub fn ceiling<Q: OrdKey<T>>(&self, value: Q) -> Option<&T>
        ensures first { option_copied result ≡ ceiling_member_form Q.order Q.turned (Q.seen value) self.now.members }
        ensures ordered { IsOrderedSet T.cmp self.now }
    {
        self.ceiling_counted(value, &mut Steps::new())
    }

    /// [`ceiling`](RedBlackTreeSet::ceiling), which adds one to `compared` for each member that it compares: at least one
    /// where there is a member, and at most one on each level.
    pub fn ceiling_counted<Q: OrdKey<T>>(&self, value: Q, steps: &mut Steps) -> Option<&T>
        ensures first { option_copied result ≡ ceiling_member_form Q.order Q.turned (Q.seen value) self.now.members }
        ensures ordered { IsOrderedSet T.cmp self.now }

        ensures compared { steps.new.compared ≤ steps.old.compared + self.now.depth }
        ensures least { steps.old.compared ≤ steps.new.compared }
        ensures compares { self.now.members ≢ [] → steps.old.compared < steps.new.compared }
        ensures depth { self.now.depth ≤ most_levels (length self.now.members) }
        ensures others { steps.new ≡ record steps.old { compared = steps.new.compared } }
    {
        match self.map.ceiling_counted(value, steps) {
            Some((member, _)) => Some(member),
            None => None,
        }
    }
}
