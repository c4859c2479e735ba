//! What changed at the keys of a branch that were put in or taken out.
ghost use Rattle.std.specs.Prelude.{◌≡◌, ◌+◌, ◌*◌, ◌≤◌, ◌++◌, [], IfOk, IfSome, OnOk, length, map, ⊤};
ghost use Rattle.std.specs.Iterator.{at_most, UpTo};
ghost use Rattle.std.specs.Iterator.SizeHint.{IsWithinCount};
ghost use Rattle.std.specs.List.{cons_option};
ghost use Rattle.std.specs.Map.Iter.{TakesFirst, deref_pair};
ghost use Rattle.std.specs.Option.{option_map};
ghost use Rattle.rpds_branch.specs.Branches.{SparesOthers, change_at, changes_at, fate, fewest_compared};
ghost use Rattle.rpds_core.specs.Counts.{IsWithin};
ghost use Rattle.rpds_red_black.specs.Logarithm.{most_levels};
ghost use Rattle.rpds_tree.specs.Differences.{change_value, differences};

use rpds_core::steps::Steps;
use rpds_tree::map::red_black_tree_map::{Iter, MapChange, RedBlackTreeMap};
use std::alloc::{AllocError, Allocator, Global};
use std::iter::FusedIterator;
use std::marker::Model;

// What became of a pair.
fn fate_of<'a, K, V: PartialEq>(
    before: Option<(&'a K, &'a V)>,
    after: Option<(&'a K, &'a V)>,
) -> Option<MapChange<'a, K, V>>
    ensures { option_map change_value result
        ≡ fate V.eq (option_map deref_pair before.entry) (option_map deref_pair after.entry) }
{
    match (before, after) {
        (None, None) => None,
        (Some((key, before)), None) => Some(MapChange::Removed(key, before)),
        (None, Some((key, after))) => Some(MapChange::Added(key, after)),
        (Some((_, before)), Some((key, after))) => {
            if before == after {
                None
            } else {
                Some(MapChange::Changed(key, before, after))
            }
        }
    }
}

// What became of a key from one map to another.
fn change_of<'a, K: Ord, V: PartialEq, A: Allocator>(
    old: &'a RedBlackTreeMap<K, V, A>,
    new: &'a RedBlackTreeMap<K, V, A>,
    key: &K,
    steps: &mut Steps,
) -> Option<MapChange<'a, K, V>>
    ensures change { option_map change_value result ≡ change_at K.cmp V.eq old.now.entries new.now.entries key.now }
    ensures steps { let levels = most_levels (length old.now.entries) + most_levels (length new.now.entries) in
        IsWithin levels 0 steps.old steps.new }
    ensures compares { steps.old.compared + (fewest_compared old.now.entries + fewest_compared new.now.entries)
        ≤ steps.new.compared }
{
    let before = old.get_counted(key, steps);
    let after = new.get_counted(key, steps);
    fate_of(before, after)
}

// The first change at the keys that are left.
fn next_change<'a, K: Ord, V: PartialEq, A: Allocator>(
    touched: &mut Iter<'a, K, V, A>,
    old: &'a RedBlackTreeMap<K, V, A>,
    new: &'a RedBlackTreeMap<K, V, A>,
) -> Option<MapChange<'a, K, V>>
    ensures { let left = changes_at K.cmp V.eq old.now.entries new.now.entries in
        TakesFirst change_value (left touched.old) result (left touched.new) }
{
    while let Some((key, _)) = touched.next() {
        if let Some(change) = change_of(old, new, key, &mut Steps::new()) {
            return Some(change);
        }
    }
    None
}

// Puts the change at the end, if there is one.
fn push_some<T: Drop, A: Allocator>(list: &mut Vec<T, A>, item: Option<T>) -> Result<(), AllocError>
    ensures { OnOk result (list.new.items ≡ list.old.items ++ cons_option item []) }
{
    match item {
        None => Ok(()),
        Some(item) => {
            list.push(item)?;
            Ok(())
        }
    }
}

// The changes at these keys in a list, beside which none differs.
pub(crate) fn list_of_changes<'a, K: Ord, V: Eq, A: Allocator + Copy>(
    old: &'a RedBlackTreeMap<K, V, A>,
    new: &'a RedBlackTreeMap<K, V, A>,
    touched: &RedBlackTreeMap<K, V, A>,
    steps: &mut Steps,
) -> Result<Vec<MapChange<'a, K, V>, A>, AllocError>
    requires { SparesOthers K.cmp touched.now.entries old.now.entries new.now.entries }
    ensures all { IfOk result (λ changes. map change_value changes.items
        ≡ differences K.cmp V.eq old.now.entries new.now.entries) }
    ensures steps { let levels = most_levels (length old.now.entries) + most_levels (length new.now.entries) in
        IsWithin (length touched.now.entries * levels) 0 steps.old steps.new }
    ensures compares { let fewest = fewest_compared old.now.entries + fewest_compared new.now.entries in
        OnOk result (steps.old.compared + length touched.now.entries * fewest ≤ steps.new.compared) }
{
    // For its clause: the keys of both ascend.
    let _sizes = (old.size(), new.size());
    let mut changes = Vec::new(*touched.allocator());
    for (key, _) in touched.iter() {
        push_some(&mut changes, change_of(old, new, key, steps))?;
    }
    Ok(changes)
}

/// The changes of a branch, in the order of the keys.
///
/// A step goes on to the next of the changed keys that has another value, and looks each up in both maps. It takes no memory.
#[derive(Drop)]
pub struct Changes<'a, K: Ord, V: PartialEq, A: Allocator = Global> {
    touched: Iter<'a, K, V, A>,
    old: &'a RedBlackTreeMap<K, V, A>,
    new: &'a RedBlackTreeMap<K, V, A>,
}

impl<'a, K: Ord, V: PartialEq, A: Allocator> Model for Changes<'a, K, V, A> {
    ghost use Rattle.std.specs.Prelude.{List, Option};
    ghost use Rattle.rpds_branch.specs.Branches.{changes_at};

    ghost Value = { List (K × (Option V × Option V)) };

    ghost view = { λ it. changes_at K.cmp V.eq it.old.now.entries it.new.now.entries it.touched };
}

impl<'a, K: Ord, V: Eq, A: Allocator> Changes<'a, K, V, A> {
    // The changes at these keys, beside which none differs.
    pub(crate) fn new(
        old: &'a RedBlackTreeMap<K, V, A>,
        new: &'a RedBlackTreeMap<K, V, A>,
        touched: &'a RedBlackTreeMap<K, V, A>,
    ) -> Changes<'a, K, V, A>
        requires { SparesOthers K.cmp touched.now.entries old.now.entries new.now.entries }
        ensures { result ≡ differences K.cmp V.eq old.now.entries new.now.entries }
    {
        // For its clause: the keys of both ascend.
        let _sizes = (old.size(), new.size());
        Changes {
            touched: touched.iter(),
            old,
            new,
        }
    }
}

impl<'a, K: Ord, V: PartialEq, A: Allocator> Iterator for Changes<'a, K, V, A> {
    type Item = MapChange<'a, K, V>;

    ghost next_gives = { TakesFirst change_value };

    ghost remaining = { λ it. at_most (length it) };

    fn next(&mut self) -> Option<MapChange<'a, K, V>> {
        next_change(&mut self.touched, self.old, self.new)
    }

    /// How many changes are left is not known.
    fn size_hint(&self) -> (usize, Option<usize>)
        ensures unknown { result ≡ (0, None) }
        ensures lower { IsWithinCount result.0 (at_most (length self.now)) }
        ensures upper { IfSome result.1 (UpTo (at_most (length self.now))) }
    {
        (0, None)
    }
}

impl<'a, K: Ord, V: PartialEq, A: Allocator> FusedIterator for Changes<'a, K, V, A> {}

impl<'a, K: Ord, V: PartialEq, A: Allocator> Clone for Changes<'a, K, V, A> {
    ghost is_clone = { λ it copy. copy ≡ it };

    ghost is_infallible = { λ _. ⊤ };

    fn clone(&self) -> Result<Changes<'a, K, V, A>, AllocError> {
        Ok(Changes {
            touched: self.touched.clone()?,
            old: self.old,
            new: self.new,
        })
    }
}
