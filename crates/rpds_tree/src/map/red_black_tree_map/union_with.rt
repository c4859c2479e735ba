//! The pairs of two maps, with both values of a common key in one.
ghost use Rattle.std.specs.Prelude.{◌≡◌, ◌≤◌, ◌&&◌, false, None, IfOk, MatchBool, OnOk, is_some, length};
ghost use Rattle.std.specs.Option.{option_or};
ghost use Rattle.std.specs.Ordering.{is_eq};
ghost use Rattle.rpds_red_black.specs.Logarithm.{most_levels};
ghost use Rattle.rpds_red_black.specs.Pairs.{find};
ghost use Rattle.rpds_tree.specs.United.{CombinesBy, IsUnitedAt, united_by};

use crate::map::red_black_tree_map::RedBlackTreeMap;
use std::alloc::{AllocError, Allocator};

// The map of fewer pairs: what it lacks isn't in both.
fn smaller<'a, K: Ord, V, A: Allocator>(
    a: &'a RedBlackTreeMap<K, V, A>,
    b: &'a RedBlackTreeMap<K, V, A>,
) -> &'a RedBlackTreeMap<K, V, A>
    ensures { (k : K) → find K.cmp k result.now.entries ≡ None
        → (is_some (find K.cmp k a.now.entries) && is_some (find K.cmp k b.now.entries)) ≡ false }
{
    if a.size() <= b.size() { a } else { b }
}

impl<K: Ord + Clone + Drop, V: Drop, A: Allocator + Copy> RedBlackTreeMap<K, V, A> {
    // Where both maps have the key, gives it what `combine` answers at both values.
    fn put_combined<F: Fn(&K, &V, &V) -> Result<V, AllocError>>(
        &mut self,
        ours: &RedBlackTreeMap<K, V, A>,
        theirs: &RedBlackTreeMap<K, V, A>,
        key: &K,
        combine: &F,
    ) -> Result<(), AllocError>
        requires clone_keys { (x y : K) → K.is_clone x y → y ≡ x }
        requires callable { F.IsAlwaysCallable combine.now }
        requires united { find K.cmp key.now self.old.entries
            ≡ option_or (find K.cmp key.now ours.now.entries) (find K.cmp key.now theirs.now.entries) }
        ensures { OnOk result ((k : K) → MatchBool (is_eq (K.cmp k key.now))
            (IsUnitedAt F.Fn combine.now (find K.cmp k ours.now.entries) (find K.cmp k theirs.now.entries)
            (find K.cmp k self.new.entries))
            (find K.cmp k self.new.entries ≡ find K.cmp k self.old.entries)) }
    {
        let Some((stored, our)) = ours.get_key_value(key) else {
            return Ok(());
        };
        let Some(their) = theirs.get(key) else {
            return Ok(());
        };
        let value = combine(stored, our, their)?;
        self.insert_mut(stored.clone()?, value)
    }

    /// The pairs of both maps. Where both have an equal key, the key of this map is there with what `combine` answers: it is handed
    /// the key, its value in this map, and its value in the other one. It is called once at each such key, in their order.
    ///
    /// A pair of one map alone is shared with it, and nothing of it is cloned. Beyond the cost of a
    /// [`union`](RedBlackTreeMap::union), each key of the smaller map is looked up in both, and each common key is put in anew.
    ///
    /// The error means that `combine` or the clone of a key failed, or that memory ran out. It comes, too, where both maps together
    /// have more than `usize::MAX` pairs.
    pub fn union_with<F: Fn(&K, &V, &V) -> Result<V, AllocError>>(
        &self,
        other: &RedBlackTreeMap<K, V, A>,
        combine: F,
    ) -> Result<RedBlackTreeMap<K, V, A>, AllocError>
        requires clone_keys { (x y : K) → K.is_clone x y → y ≡ x }
        requires callable { F.IsAlwaysCallable combine }
        ensures pairs { IfOk result (λ m. (k : K) → IsUnitedAt F.Fn combine
            (find K.cmp k self.now.entries) (find K.cmp k other.now.entries) (find K.cmp k m.entries)) }
        ensures found { IfOk result (λ m. (h : K → V → V → V) → CombinesBy F.Fn combine h → (k : K)
            → find K.cmp k m.entries ≡ united_by h (find K.cmp k self.now.entries) (find K.cmp k other.now.entries)) }
        ensures depth { IfOk result (λ m. m.depth ≤ most_levels (length m.entries)) }
    {
        let mut map = self.union(other)?;
        for (key, _) in smaller(self, other).iter() {
            map.put_combined(self, other, key, &combine)?;
        }
        // For its clause: no path is too long.
        let _size = map.size();
        Ok(map)
    }
}
