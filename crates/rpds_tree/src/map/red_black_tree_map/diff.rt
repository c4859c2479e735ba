//! What changed from one version of a map to another.
ghost use Rattle.std.specs.Prelude.{◌≡◌, IfSome, None, length, ⊤};
ghost use Rattle.std.specs.Iterator.{at_most, UpTo};
ghost use Rattle.std.specs.Iterator.SizeHint.{IsWithinCount};
ghost use Rattle.std.specs.Map.Iter.{TakesFirst, ShowsInOrder};
ghost use Rattle.rpds_tree.specs.Differences.{change_value, differences};
ghost use Rattle.rpds_red_black.specs.OrderedMap.{IsOrdered};
ghost use Rattle.rpds_red_black.specs.Pairs.{IsAscending};

use crate::map::red_black_tree_map::RedBlackTreeMap;
use rpds_core::change::MapChange;
use rpds_red_black::walk::{Forward, PeekedWalk};
use std::alloc::{AllocError, Allocator, Global};
use std::iter::FusedIterator;
use std::marker::Model;

/// The changes from one version of a map to another, in the order of the keys.
///
/// It goes over both side by side, and holds a stack of 128 places for nodes for each. All steps together enter each node of
/// both once, also those that the two share. It takes no memory.
#[derive(Drop)]
pub struct Diff<'a, K: Ord, V: PartialEq, A: Allocator = Global, B: Allocator = Global> {
    old: PeekedWalk<'a, K, V, A, Forward>,
    new: PeekedWalk<'a, K, V, B, Forward>,
}

impl<'a, K: Ord, V: PartialEq, A: Allocator, B: Allocator> Model for Diff<'a, K, V, A, B> {
    ghost use Rattle.std.specs.Prelude.{List, Option};
    ghost use Rattle.rpds_tree.specs.Differences.{change_value, differences};
    ghost use Rattle.rpds_red_black.specs.Pairs.{IsAscending};

    ghost Value = { List (K × (Option V × Option V)) };

    ghost view = { λ it. differences K.cmp V.eq it.old it.new };

    ghost invariant = { λ it. IsAscending K.cmp it.old × IsAscending K.cmp it.new };
}

// The first change of what two walks have left.
fn next_change<'a, K: Ord, V: PartialEq, A: Allocator, B: Allocator>(
    old: &mut PeekedWalk<'a, K, V, A, Forward>,
    new: &mut PeekedWalk<'a, K, V, B, Forward>,
) -> Option<MapChange<'a, K, V>>
    requires old_ascends { IsAscending K.cmp old.old }
    requires new_ascends { IsAscending K.cmp new.old }
    ensures change { let left = differences K.cmp V.eq in
        TakesFirst change_value (left old.old new.old) result (left old.new new.new) }
    ensures old_ascends { IsAscending K.cmp old.new }
    ensures new_ascends { IsAscending K.cmp new.new }
{
    while let Some(old_key) = old.next_key() {
        let Some(new_key) = new.next_key() else {
            let (key, value) = old.next();
            return Some(MapChange::Removed(key, value));
        };
        let order = old_key.cmp(new_key);
        if order.is_lt() {
            let (key, value) = old.next();
            return Some(MapChange::Removed(key, value));
        }
        if order.is_gt() {
            let (key, value) = new.next();
            return Some(MapChange::Added(key, value));
        }
        let (_, before) = old.next();
        let (key, after) = new.next();
        if before != after {
            return Some(MapChange::Changed(key, before, after));
        }
    }
    new.next_key()?;
    let (key, value) = new.next();
    Some(MapChange::Added(key, value))
}

impl<'a, K: Ord, V: PartialEq, A: Allocator, B: Allocator> Iterator for Diff<'a, K, V, A, B> {
    type Item = MapChange<'a, K, V>;

    ghost next_gives = { TakesFirst change_value };

    ghost remaining = { λ it. at_most (length it) };

    #[inline(always)]
    fn next(&mut self) -> Option<MapChange<'a, K, V>> {
        next_change(&mut self.old, &mut self.new)
    }

    /// How many changes are left is not known.
    fn size_hint(&self) -> (usize, Option<usize>)
        ensures unknown { result ≡ (0, None) }
        ensures lower { IsWithinCount result.0 (at_most (length self.now)) }
        ensures upper { IfSome result.1 (UpTo (at_most (length self.now))) }
    {
        (0, None)
    }
}

impl<'a, K: Ord, V: PartialEq, A: Allocator, B: Allocator> FusedIterator for Diff<'a, K, V, A, B> {}

impl<'a, K: Ord, V: PartialEq, A: Allocator, B: Allocator> Clone for Diff<'a, K, V, A, B> {
    ghost is_clone = { λ it copy. copy ≡ it };

    ghost is_infallible = { λ _. ⊤ };

    fn clone(&self) -> Result<Diff<'a, K, V, A, B>, AllocError> {
        Ok(Diff {
            old: self.old.clone()?,
            new: self.new.clone()?,
        })
    }
}

impl<K: Ord, V: PartialEq, A: Allocator> RedBlackTreeMap<K, V, A> {
    /// What changed from this map to the other: the pairs that it lacks, those that it has beyond this one, and those of a
    /// key whose values aren't equal, in the order of the keys.
    #[inline(always)]
    pub fn diff<'a, B: Allocator>(
        &'a self,
        other: &'a RedBlackTreeMap<K, V, B>,
    ) -> Diff<'a, K, V, A, B>
        ensures rest { result ≡ differences K.cmp V.eq self.now.entries other.now.entries }
        ensures ordered { IsOrdered K.cmp self.now }

        // `next` gives them in this order.
        ensures runs { ShowsInOrder (change_value {K = K} {V = V}) }
    {
        // For its clause: the length is below 2^64.
        let _sizes = (self.size(), other.size());
        let mut changes = Diff {
            old: PeekedWalk::empty(),
            new: PeekedWalk::empty(),
        };
        changes.old.start(&self.tree);
        changes.new.start(&other.tree);
        changes
    }
}
