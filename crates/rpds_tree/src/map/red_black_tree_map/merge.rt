//! Two versions of a map in one.
ghost use Rattle.std.specs.Prelude.{◌≡◌, ◌≤◌, IfOk, Option, filter, length, map};
ghost use Rattle.std.specs.Map.{keys_of};
ghost use Rattle.std.specs.declared.cmp.Ordering.TheVariants.{Equal};
ghost use Rattle.rpds_red_black.specs.Logarithm.{most_levels};
ghost use Rattle.rpds_red_black.specs.Pairs.{find};
ghost use Rattle.rpds_tree.specs.Differences.{change_value, differences, value_of};
ghost use Rattle.rpds_tree.specs.Merges.{IsMergedAt, SettlesBy, is_conflict_at, merged_at, merged_value};

use crate::map::red_black_tree_map::{MapChange, RedBlackTreeMap};
use crate::merging::{merge_key, merge_key_with};
use rpds_core::steps::Steps;
use std::alloc::{AllocError, Allocator, Global};

/// What came of a merge of three maps that leaves conflicts.
#[derive(Drop)]
#[must_use = "a merge returns a new map, and leaves the old ones as they are"]
pub struct MergedMap<'a, K: Ord, V, A: Allocator = Global> {
    /// What either side alone changed as that side has it, and all else as ours has it.
    pub map: RedBlackTreeMap<K, V, A>,
    /// The keys that both sides changed, and not alike, in order.
    pub conflicts: Vec<&'a K, A>,
}

// The key of a change.
fn key_of<'a, K, V>(change: MapChange<'a, K, V>) -> &'a K
    ensures { result.now ≡ (change_value change.entry).0 }
{
    match change {
        MapChange::Added(key, _) => key,
        MapChange::Removed(key, _) => key,
        MapChange::Changed(key, _, _) => key,
    }
}

impl<K: Ord + Drop, V: PartialEq + Drop, A: Allocator + Copy> RedBlackTreeMap<K, V, A> {
    /// What two versions of this map have in one, and the keys that both changed differently: there ours stays. All other keys are as
    /// after [`merge`](RedBlackTreeMap::merge). Pairs are shared, and nothing is cloned. A conflict is listed by the key of theirs, or by
    /// that of this map where they took it out.
    ///
    /// The error means that memory ran out; it comes, too, where there would be more than `usize::MAX` pairs.
    pub fn merge_ours<'a>(
        &'a self,
        ours: &RedBlackTreeMap<K, V, A>,
        theirs: &'a RedBlackTreeMap<K, V, A>,
    ) -> Result<MergedMap<'a, K, V, A>, AllocError>
        ensures pairs { IfOk result (λ m. (k : K) → find K.cmp k m.map.entries
            ≡ merged_at K.cmp V.eq self.now.entries ours.now.entries theirs.now.entries k) }

        // Of the keys that they changed, in order, those that we changed otherwise.
        ensures conflicts { IfOk result (λ m. map (λ key. key.now) m.conflicts.items
            ≡ filter (λ k. is_conflict_at K.cmp V.eq self.now.entries ours.now.entries theirs.now.entries k)
            (keys_of (differences K.cmp V.eq self.now.entries theirs.now.entries))) }
        ensures depth { IfOk result (λ m. m.map.depth ≤ most_levels (length m.map.entries)) }
    {
        let mut merged = ours.clone()?;
        let mut conflicts = Vec::new(self.alloc);
        for change in self.diff(theirs) {
            let key = key_of(change);
            if merge_key(&mut merged, self, theirs, key, &mut Steps::new())? {
                conflicts.push(key)?;
            }
        }
        // For its clause: no path is too long.
        let _size = merged.size();
        Ok(MergedMap {
            map: merged,
            conflicts,
        })
    }
}

impl<K: Ord + Clone + Drop, V: PartialEq + Drop, A: Allocator + Copy> RedBlackTreeMap<K, V, A> {
    /// What two versions of this map have in one: a key that one side changed as that side has it, one that both changed alike as
    /// ours has it. Where both changed a key, and not alike, it has what `resolve` answers: a value, or nothing. `resolve` is handed
    /// the key, and its value in this map, in ours and in theirs.
    ///
    /// It goes over this map and theirs side by side. Where it is known which keys were changed,
    /// [`Branch`](rpds_branch::branch::Branch) goes over those alone. Pairs that are taken over are shared; a key that `resolve`
    /// gives a value is cloned.
    ///
    /// The error means that `resolve` or the clone of a key failed, or that memory ran out; it comes, too, where there would be more
    /// than `usize::MAX` pairs.
    pub fn merge<F: Fn(&K, Option<&V>, Option<&V>, Option<&V>) -> Result<Option<V>, AllocError>>(
        &self,
        ours: &RedBlackTreeMap<K, V, A>,
        theirs: &RedBlackTreeMap<K, V, A>,
        resolve: F,
    ) -> Result<RedBlackTreeMap<K, V, A>, AllocError>
        requires clone_keys { (x y : K) → K.is_clone x y → K.cmp x y ≡ Equal }
        requires callable { F.IsAlwaysCallable resolve }
        ensures pairs { IfOk result (λ m. (k : K) →
            IsMergedAt K.cmp V.eq F.Fn resolve self.now.entries ours.now.entries theirs.now.entries k (find K.cmp k m.entries)) }
        ensures values { IfOk result (λ m. (h : Option V → Option V → Option V → Option V) → SettlesBy F.Fn resolve h → (k : K)
            → value_of K.cmp k m.entries ≡ merged_value V.eq h
            (value_of K.cmp k self.now.entries) (value_of K.cmp k ours.now.entries) (value_of K.cmp k theirs.now.entries)) }
        ensures depth { IfOk result (λ m. m.depth ≤ most_levels (length m.entries)) }
    {
        let mut map = ours.clone()?;
        for change in self.diff(theirs) {
            let key = key_of(change);
            merge_key_with(&mut map, self, theirs, key, &resolve, &mut Steps::new())?;
        }
        // For its clause: no path is too long.
        let _size = map.size();
        Ok(map)
    }
}
