//! The pairs next to a key, which is given by a form of it.
ghost use Rattle.std.specs.Prelude.{◌≡◌, ◌≢◌, ◌+◌, ◌<◌, ◌≤◌, [], filter, slice_get};
ghost use Rattle.std.specs.Map.Iter.{deref_pair};
ghost use Rattle.std.specs.Option.{option_map};
ghost use Rattle.std.specs.Ordering.{is_le};
ghost use Rattle.rpds_red_black.specs.Pairs.{IsAscending};
ghost use Rattle.rpds_red_black.specs.TreeWalk.{along, form_along};

use crate::tree::Tree;
use crate::walk::Direction;
use rpds_core::key::OrdKey;
use rpds_core::map::entry::Entry;
use rpds_core::steps::Steps;
use std::alloc::Allocator;

impl<K: Ord, V, A: Allocator> Tree<K, V, A> {
    /// The first pair of a walk that starts at the key. It compares one key on each level of a path.
    pub fn nearest<D: Direction, Q: OrdKey<K>>(&self, key: Q, steps: &mut Steps) -> Option<(&K, &V)>
        requires { IsAscending K.cmp self.now.entries }
        ensures first { let from = form_along D.back Q.order Q.turned (Q.seen key) in
            option_map deref_pair result ≡ slice_get (filter (λ p. is_le (from p.0)) (along D.back self.now.entries)) 0 }
        ensures compared { steps.new.compared ≤ steps.old.compared + self.now.depth }
        ensures least { steps.old.compared ≤ steps.new.compared }
        ensures compares { self.now.entries ≢ [] → steps.old.compared < steps.new.compared }
        ensures others { steps.new ≡ record steps.old { compared = steps.new.compared } }
    {
        let mut tree = self;
        let mut nearest = None;
        while let Some(node) = tree.node() {
            let entry: &Entry<K, V> = &node.entry;
            if D::compare_form(key, &entry.key, steps).is_le() {
                nearest = Some((&entry.key, &entry.value));
                tree = D::near(node);
            } else {
                tree = D::far(node);
            }
        }
        nearest
    }
}
