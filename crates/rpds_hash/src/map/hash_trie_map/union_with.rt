//! The pairs of two maps, with both values of a common key in one.
ghost use Rattle.std.specs.Prelude.{◌≡◌, ◌&&◌, false, None, IfOk, MatchBool, OnOk, is_some};
ghost use Rattle.std.specs.Option.{option_or};
ghost use Rattle.rpds_hash.specs.HashUnited.{CombinesBy, IsUnitedAt, united_by};
ghost use Rattle.rpds_hash_trie.specs.HashedMap.{find};

use crate::map::hash_trie_map::HashTrieMap;
use std::alloc::{AllocError, Allocator};
use std::hash::{BuildHasher, Hash};

// The map of fewer pairs: what it lacks isn't in both.
fn smaller<'a, K: Eq + Hash, V, H: BuildHasher, A: Allocator>(
    a: &'a HashTrieMap<K, V, H, A>,
    b: &'a HashTrieMap<K, V, H, A>,
) -> &'a HashTrieMap<K, V, H, A>
    ensures { (k : K) → find K.eq k result.now.entries ≡ None
        → (is_some (find K.eq k a.now.entries) && is_some (find K.eq k b.now.entries)) ≡ false }
{
    if a.size() <= b.size() { a } else { b }
}

impl<K: Eq + Hash + Clone + Drop, V: Drop, H: BuildHasher, A: Allocator + Copy> HashTrieMap<
    K,
    V,
    H,
    A,
> {
    // Where both maps have the key, gives it what `combine` answers at both values.
    fn put_combined<F: Fn(&K, &V, &V) -> Result<V, AllocError>>(
        &mut self,
        ours: &HashTrieMap<K, V, H, A>,
        theirs: &HashTrieMap<K, V, H, A>,
        key: &K,
        combine: &F,
    ) -> Result<(), AllocError>
        requires clone_keys { (x y : K) → K.is_clone x y → y ≡ x }
        requires callable { F.IsAlwaysCallable combine.now }
        requires united { find K.eq key.now self.old.entries
            ≡ option_or (find K.eq key.now ours.now.entries) (find K.eq key.now theirs.now.entries) }
        ensures united { OnOk result ((k : K) → MatchBool (K.eq key.now k)
            (IsUnitedAt F.Fn combine.now (find K.eq k ours.now.entries) (find K.eq k theirs.now.entries)
            (find K.eq k self.new.entries))
            (find K.eq k self.new.entries ≡ find K.eq k self.old.entries)) }
        ensures same { OnOk result (self.new ≡ record self.old { entries = self.new.entries }) }
    {
        let Some((stored, our)) = ours.get_key_value(key) else {
            return Ok(());
        };
        let Some(their) = theirs.get(key) else {
            return Ok(());
        };
        let value = combine(stored, our, their)?;
        self.insert_mut(stored.clone()?, value)
    }
}

impl<
    K: Eq + Hash + Clone + Drop,
    V: Drop,
    H: BuildHasher + Clone + Drop,
    A: Allocator + Copy,
> HashTrieMap<K, V, H, A> {
    /// The pairs of both maps. Where both have an equal key, the key of this map is there with what `combine` answers: it is handed
    /// the key, its value in this map, and its value in the other one. It is called once at each such key, in the order of the smaller
    /// map.
    ///
    /// Pairs of one map alone are shared, as in a [`union`](HashTrieMap::union). Beyond the cost of a `union`, each key of the smaller map
    /// is looked up in both, and each common key is cloned and put in anew.
    ///
    /// The error means that `combine` or the clone of a key failed, or that memory ran out. It comes, too, where there would be more than
    /// `usize::MAX` pairs.
    pub fn union_with<F: Fn(&K, &V, &V) -> Result<V, AllocError>>(
        &self,
        other: &HashTrieMap<K, V, H, A>,
        combine: F,
    ) -> Result<HashTrieMap<K, V, H, A>, AllocError>
        requires clone_hasher { (x y : H) → H.is_clone x y → y ≡ x }
        requires clone_keys { (x y : K) → K.is_clone x y → y ≡ x }
        requires callable { F.IsAlwaysCallable combine }
        ensures pairs { IfOk result (λ m. (k : K) → IsUnitedAt F.Fn combine
            (find K.eq k self.now.entries) (find K.eq k other.now.entries) (find K.eq k m.entries)) }
        ensures found { IfOk result (λ m. (h : K → V → V → V) → CombinesBy F.Fn combine h → (k : K)
            → find K.eq k m.entries ≡ united_by h (find K.eq k self.now.entries) (find K.eq k other.now.entries)) }
        ensures same { IfOk result (λ m. m ≡ record self.now { entries = m.entries }) }
    {
        let mut map = self.union(other)?;
        for (key, _) in smaller(self, other).iter() {
            map.put_combined(self, other, key, &combine)?;
        }
        Ok(map)
    }
}
