//! Look-up down one path of a tree.
ghost use Rattle.std.specs.Prelude.{◌≡◌, ◌+◌, ◌-◌, ◌<◌, ◌≤◌, ◌≢◌, [], length, slice_get, IfOk, IsSome};
ghost use Rattle.std.specs.Map.Iter.{deref_pair};
ghost use Rattle.std.specs.Option.{option_map};
ghost use Rattle.rpds_red_black.specs.Join.{pair_held, pair_lent};
ghost use Rattle.rpds_red_black.specs.Pairs.{IsAscending, find};
ghost use Rattle.rpds_red_black.specs.TreeNode.{pair_of};

use crate::tree::{Link, Node, Tree};
use rpds_core::key::OrdKey;
use rpds_core::map::entry::Entry;
use rpds_core::steps::Steps;
use std::alloc::{AllocError, Allocator};
use std::cmp::Ordering;
use std::rc::Rc;

impl<K: Ord, V, A: Allocator> Tree<K, V, A> {
    /// The pair of the key. It compares at most one key on each level.
    pub fn get_counted<Q: OrdKey<K>>(&self, key: Q, steps: &mut Steps) -> Option<(&K, &V)>
        requires { IsAscending K.cmp self.now.entries }
        ensures found { option_map deref_pair result ≡ find Q.order (Q.seen key) self.now.entries }
        ensures compared { steps.new.compared ≤ steps.old.compared + self.now.depth }
        ensures least { steps.old.compared ≤ steps.new.compared }
        ensures compares { self.now.entries ≢ [] → steps.old.compared < steps.new.compared }
        ensures others { steps.new ≡ record steps.old { compared = steps.new.compared } }
    {
        let entry: &Entry<K, V> = self.entry_counted(key, steps)?;
        Some((&entry.key, &entry.value))
    }

    // The entry of the key.
    #[inline(always)]
    pub(crate) fn entry_counted<Q: OrdKey<K>>(
        &self,
        key: Q,
        steps: &mut Steps,
    ) -> Option<&Rc<Entry<K, V>, A>>
        requires { IsAscending K.cmp self.now.entries }
        ensures found { pair_lent result ≡ find Q.order (Q.seen key) self.now.entries }
        ensures compared { steps.new.compared ≤ steps.old.compared + self.now.depth }
        ensures least { steps.old.compared ≤ steps.new.compared }
        ensures compares { self.now.entries ≢ [] → steps.old.compared < steps.new.compared }
        ensures others { steps.new ≡ record steps.old { compared = steps.new.compared } }
    {
        let mut tree = self;
        while let Link::Branch(_, _, node) = &tree.root {
            let node: &Node<K, V, A> = node;
            let order = steps.compare_form(key, &node.entry.key);
            if order.is_eq() {
                return Some(&node.entry);
            }
            tree = if order.is_lt() {
                &node.left
            } else {
                &node.right
            };
        }
        None
    }
}

impl<K: Ord + Drop, V: Drop, A: Allocator + Copy> Tree<K, V, A> {
    /// Another handle to the entry of the key, for another tree to share. It compares at most one key on each level. It allocates
    /// nothing, and fails only where the entry's count of owners is full.
    pub fn shared_entry_counted<Q: OrdKey<K>>(
        &self,
        key: Q,
        steps: &mut Steps,
    ) -> Result<Option<Rc<Entry<K, V>, A>>, AllocError>
        requires { IsAscending K.cmp self.now.entries }
        ensures found { IfOk result (λ entry. pair_held entry ≡ find Q.order (Q.seen key) self.now.entries) }
        ensures compared { steps.new.compared ≤ steps.old.compared + self.now.depth }
        ensures least { steps.old.compared ≤ steps.new.compared }
        ensures others { steps.new ≡ record steps.old { compared = steps.new.compared } }
    {
        match self.entry_counted(key, steps) {
            None => Ok(None),
            Some(entry) => Ok(Some(entry.clone()?)),
        }
    }
}

impl<K, V, A: Allocator> Tree<K, V, A> {
    // The entry of the least key.
    #[inline(always)]
    pub(crate) fn first_entry(&self) -> Option<&Rc<Entry<K, V>, A>>
        ensures pair { option_map (λ e. pair_of e.now.value) result ≡ slice_get self.now.entries 0 }
        ensures some { 0 < self.now.depth → IsSome result }
    {
        let Link::Branch(_, _, root) = &self.root else {
            return None;
        };
        let mut node: &Node<K, V, A> = root;
        while let Link::Branch(_, _, left) = &node.left.root {
            node = left;
        }
        Some(&node.entry)
    }

    /// The pair of the least key.
    pub fn first(&self) -> Option<(&K, &V)>
        ensures { option_map deref_pair result ≡ slice_get self.now.entries 0 }
    {
        let entry: &Entry<K, V> = self.first_entry()?;
        Some((&entry.key, &entry.value))
    }

    /// The pair of the greatest key.
    pub fn last(&self) -> Option<(&K, &V)>
        ensures { option_map deref_pair result ≡ slice_get self.now.entries
            (length self.now.entries - 1) }
    {
        let Link::Branch(_, _, root) = &self.root else {
            return None;
        };
        let mut node: &Node<K, V, A> = root;
        while let Link::Branch(_, _, right) = &node.right.root {
            node = right;
        }
        let entry: &Entry<K, V> = &node.entry;
        Some((&entry.key, &entry.value))
    }
}
