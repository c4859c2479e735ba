//! Pairs and their positions in the order of the keys, by the counts of pairs that the links hold.
ghost use Rattle.std.specs.Prelude.{◌≡◌, ◌≢◌, ◌+◌, ◌<◌, ◌≤◌, [], filter, length, slice_get};
ghost use Rattle.std.specs.Map.Iter.{deref_pair};
ghost use Rattle.std.specs.Option.{option_map};
ghost use Rattle.std.specs.Range.Bound.{bound_map};
ghost use Rattle.std.specs.declared.ops.Bound.TheVariants.{Unbounded};
ghost use Rattle.rpds_red_black.specs.Pairs.{IsAscending};
ghost use Rattle.rpds_red_black.specs.Ranges.{is_from};
ghost use Rattle.rpds_red_black.specs.TreeWalk.{form_along};

use crate::tree::{Link, Node, Tree};
use crate::walk::Direction;
use rpds_core::key::OrdKey;
use rpds_core::map::entry::Entry;
use rpds_core::steps::Steps;
use std::alloc::Allocator;
use std::ops::Bound;

impl<K, V, A: Allocator> Tree<K, V, A> {
    /// How many pairs it has, at most `most`. Below 2^32 pairs the count in its link tells that. Above, the count has wrapped, and
    /// the nodes are counted.
    #[inline(always)]
    pub fn len_within(&self, most: usize) -> usize
        requires { length self.now.entries ≤ most }
        ensures { result ≡ length self.now.entries }
    {
        if most <= u32::MAX as usize {
            self.count() as usize
        } else {
            self.count_nodes()
        }
    }

    /// How many pairs it has, by a walk over all nodes.
    fn count_nodes(&self) -> usize
        requires { length self.now.entries ≤ usize.MAX }
        ensures { result ≡ length self.now.entries }
    {
        match &self.root {
            Link::Leaf => 0,
            Link::Branch(_, _, node) => {
                let node: &Node<K, V, A> = node;
                node.left.count_nodes() + 1 + node.right.count_nodes()
            }
        }
    }

    /// The pair at the position, counted from 0, where there are `size` pairs. It enters at most one node on each level.
    pub fn nth(&self, size: usize, position: usize, steps: &mut Steps) -> Option<(&K, &V)>
        requires { size ≡ length self.now.entries }
        ensures found { option_map deref_pair result ≡ slice_get self.now.entries position }
        ensures visited { steps.new.visited ≤ steps.old.visited + self.now.depth }
        ensures least { steps.old.visited ≤ steps.new.visited }
        ensures enters { self.now.entries ≢ [] → steps.old.visited < steps.new.visited }
        ensures others { steps.new ≡ record steps.old { visited = steps.new.visited } }
    {
        let mut tree = self;
        let mut size = size;
        let mut position = position;
        while let Link::Branch(_, _, node) = &tree.root {
            let node: &Node<K, V, A> = node;
            steps.raise_visited();
            let before = node.left.len_within(size);
            if position == before {
                let entry: &Entry<K, V> = &node.entry;
                return Some((&entry.key, &entry.value));
            }
            if position < before {
                tree = &node.left;
                size = before;
            } else {
                tree = &node.right;
                size -= before + 1;
                position -= before + 1;
            }
        }
        None
    }
}

/// Whether a walk that starts at the bound gives the key. The comparison is counted.
#[inline(always)]
pub(crate) fn gives_counted<K: Ord, D: Direction, Q: OrdKey<K>>(
    bound: &Bound<Q>,
    key: &K,
    steps: &mut Steps,
) -> bool
    ensures gives { result ≡ is_from (form_along D.back Q.order Q.turned) (bound_map Q.seen bound.now) key.now }
    ensures compared { steps.new.compared ≤ steps.old.compared + 1 }
    ensures least { steps.old.compared ≤ steps.new.compared }
    ensures compares { bound_map Q.seen bound.now ≢ Unbounded → steps.old.compared < steps.new.compared }
    ensures others { steps.new ≡ record steps.old { compared = steps.new.compared } }
{
    match bound {
        Bound::Included(start) => D::compare_form(*start, key, steps).is_le(),
        Bound::Excluded(start) => D::compare_form(*start, key, steps).is_lt(),
        Bound::Unbounded => true,
    }
}

impl<K: Ord, V, A: Allocator> Tree<K, V, A> {
    /// How many pairs a walk that starts at the bound leaves out, of `size` pairs. It compares at most one key on each level.
    pub fn count_outside<D: Direction, Q: OrdKey<K>>(
        &self,
        size: usize,
        bound: &Bound<Q>,
        steps: &mut Steps,
    ) -> usize
        requires size { size ≡ length self.now.entries }
        requires ascending { IsAscending K.cmp self.now.entries }
        ensures outside { let gives = is_from (form_along D.back Q.order Q.turned) (bound_map Q.seen bound.now) in
            result + length (filter (λ p. gives p.0) self.now.entries) ≡ size }
        ensures compared { steps.new.compared ≤ steps.old.compared + self.now.depth }
        ensures least { steps.old.compared ≤ steps.new.compared }
        ensures compares { bound_map Q.seen bound.now ≢ Unbounded → self.now.entries ≢ []
            → steps.old.compared < steps.new.compared }
        ensures others { steps.new ≡ record steps.old { compared = steps.new.compared } }
    {
        let mut tree = self;
        let mut size = size;
        let mut outside = 0;
        while let Some(node) = tree.node() {
            let near = D::near(node);
            let before = near.len_within(size);
            if gives_counted::<K, D, Q>(bound, &node.entry.key, steps) {
                tree = near;
                size = before;
            } else {
                tree = D::far(node);
                size -= before + 1;
                outside += before + 1;
            }
        }
        outside
    }
}
