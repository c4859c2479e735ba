//! The pairs next to a key.
ghost use Rattle.std.specs.Prelude.{◌≡◌, ◌≢◌, ◌+◌, ◌<◌, ◌≤◌, [], length};
ghost use Rattle.std.specs.Map.Iter.{deref_pair};
ghost use Rattle.std.specs.Option.{option_map};
ghost use Rattle.rpds_red_black.specs.Logarithm.{most_levels};
ghost use Rattle.rpds_red_black.specs.Neighbors.{ceiling_form, floor_form};
ghost use Rattle.rpds_red_black.specs.OrderedMap.{IsOrdered};

use crate::map::red_black_tree_map::RedBlackTreeMap;
use rpds_core::key::OrdKey;
use rpds_core::steps::Steps;
use rpds_red_black::walk::{Backward, Forward};
use std::alloc::Allocator;

impl<K: Ord, V, A: Allocator> RedBlackTreeMap<K, V, A> {
    /// The pair of the greatest key at or below the key, by one path down.
    pub fn floor<Q: OrdKey<K>>(&self, key: Q) -> Option<(&K, &V)>
        ensures last { option_map deref_pair result ≡ floor_form Q.order Q.turned (Q.seen key) self.now.entries }
        ensures ordered { IsOrdered K.cmp self.now }
    {
        self.floor_counted(key, &mut Steps::new())
    }

    /// [`floor`](RedBlackTreeMap::floor), which adds one to `compared` for each key that it compares: at least one where
    /// there is a pair, and at most one on each level.
    pub fn floor_counted<Q: OrdKey<K>>(&self, key: Q, steps: &mut Steps) -> Option<(&K, &V)>
        ensures last { option_map deref_pair result ≡ floor_form Q.order Q.turned (Q.seen key) self.now.entries }
        ensures ordered { IsOrdered K.cmp self.now }

        ensures compared { steps.new.compared ≤ steps.old.compared + self.now.depth }
        ensures least { steps.old.compared ≤ steps.new.compared }
        ensures compares { self.now.entries ≢ [] → steps.old.compared < steps.new.compared }
        ensures depth { self.now.depth ≤ most_levels (length self.now.entries) }
        ensures others { steps.new ≡ record steps.old { compared = steps.new.compared } }
    {
        self.tree.nearest::<Backward, Q>(key, steps)
    }

    /// The pair of the least key at or above the key, by one path down.
    pub fn ceiling<Q: OrdKey<K>>(&self, key: Q) -> Option<(&K, &V)>
        ensures first { option_map deref_pair result ≡ ceiling_form Q.order Q.turned (Q.seen key) self.now.entries }
        ensures ordered { IsOrdered K.cmp self.now }
    {
        self.ceiling_counted(key, &mut Steps::new())
    }

    /// [`ceiling`](RedBlackTreeMap::ceiling), which adds one to `compared` for each key that it compares: at least one where
    /// there is a pair, and at most one on each level.
    pub fn ceiling_counted<Q: OrdKey<K>>(&self, key: Q, steps: &mut Steps) -> Option<(&K, &V)>
        ensures first { option_map deref_pair result ≡ ceiling_form Q.order Q.turned (Q.seen key) self.now.entries }
        ensures ordered { IsOrdered K.cmp self.now }

        ensures compared { steps.new.compared ≤ steps.old.compared + self.now.depth }
        ensures least { steps.old.compared ≤ steps.new.compared }
        ensures compares { self.now.entries ≢ [] → steps.old.compared < steps.new.compared }
        ensures depth { self.now.depth ≤ most_levels (length self.now.entries) }
        ensures others { steps.new ≡ record steps.old { compared = steps.new.compared } }
    {
        self.tree.nearest::<Forward, Q>(key, steps)
    }
}
