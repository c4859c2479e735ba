//! Two versions of a map in one.
ghost use Rattle.std.specs.Prelude.{◌≡◌, ◌&&◌, IfOk, MatchBool, OnOk, Option, is_none, is_some};
ghost use Rattle.std.specs.Option.{option_copied};
ghost use Rattle.rpds_hash.specs.HashMerges.{IsMergedAt, IsResolved, SettlesBy, differ, merged_value, value_of};
ghost use Rattle.rpds_hash_trie.specs.HashedMap.{find};

use crate::map::hash_trie_map::HashTrieMap;
use std::alloc::{AllocError, Allocator};
use std::hash::{BuildHasher, Hash};

// Whether a key has another value, where it may be absent.
fn is_other<V: PartialEq>(a: Option<&V>, b: Option<&V>) -> bool
    ensures { result ≡ differ V.eq (option_copied a.entry) (option_copied b.entry) }
{
    a != b
}

impl<
    K: Eq + Hash + Clone + Drop,
    V: PartialEq + Drop,
    H: BuildHasher,
    A: Allocator + Copy,
> HashTrieMap<K, V, H, A> {
    // Gives the key what `resolve` answers. Ours is what this map has.
    fn settle_key<F: Fn(&K, Option<&V>, Option<&V>, Option<&V>) -> Result<Option<V>, AllocError>>(
        &mut self,
        base: &HashTrieMap<K, V, H, A>,
        theirs: &HashTrieMap<K, V, H, A>,
        key: &K,
        resolve: &F,
    ) -> Result<(), AllocError>
        requires clone_keys { (x y : K) → K.is_clone x y → y ≡ x }
        requires callable { F.IsAlwaysCallable resolve.now }
        ensures settled { OnOk result ((answer : Option V)
            × IsResolved K.eq F.Fn resolve.now key.now (value_of K.eq key.now base.now.entries)
            (value_of K.eq key.now self.old.entries) (value_of K.eq key.now theirs.now.entries) answer
            × ((k : K) → MatchBool (K.eq key.now k) (value_of K.eq k self.new.entries ≡ answer)
            (find K.eq k self.new.entries ≡ find K.eq k self.old.entries))) }
        ensures same { OnOk result (self.new ≡ record self.old { entries = self.new.entries }) }
    {
        let before = base.get(key);
        let our = self.get(key);
        let their = theirs.get(key);
        match resolve(key, before, our, their)? {
            Some(value) => self.insert_mut(key.clone()?, value),
            None => {
                self.remove_mut(key)?;
                Ok(())
            }
        }
    }

    // Takes the key over from theirs where they alone changed it, and gives it what `resolve` answers where both did, and not alike.
    // Ours is what this map has.
    fn merge_key<F: Fn(&K, Option<&V>, Option<&V>, Option<&V>) -> Result<Option<V>, AllocError>>(
        &mut self,
        base: &HashTrieMap<K, V, H, A>,
        theirs: &HashTrieMap<K, V, H, A>,
        key: &K,
        resolve: &F,
    ) -> Result<(), AllocError>
        requires clone_keys { (x y : K) → K.is_clone x y → y ≡ x }
        requires callable { F.IsAlwaysCallable resolve.now }
        ensures merged { OnOk result ((k : K) → MatchBool (K.eq key.now k)
            (IsMergedAt K.eq V.eq F.Fn resolve.now base.now.entries self.old.entries theirs.now.entries k
            (find K.eq k self.new.entries))
            (find K.eq k self.new.entries ≡ find K.eq k self.old.entries)) }
        ensures same { OnOk result (self.new ≡ record self.old { entries = self.new.entries }) }
    {
        let before = base.get(key);
        let their = theirs.get(key);
        if !is_other(before, their) {
            return Ok(());
        }
        let our = self.get(key);
        if !is_other(before, our) {
            return self.copy_from_mut(theirs, key);
        }
        if !is_other(our, their) {
            return Ok(());
        }
        self.settle_key(base, theirs, key, resolve)
    }

    // Merges the keys that were there before. Ours is what this map has.
    fn merge_stored<F: Fn(&K, Option<&V>, Option<&V>, Option<&V>) -> Result<Option<V>, AllocError>>(
        &mut self,
        base: &HashTrieMap<K, V, H, A>,
        theirs: &HashTrieMap<K, V, H, A>,
        resolve: &F,
    ) -> Result<(), AllocError>
        requires clone_keys { (x y : K) → K.is_clone x y → y ≡ x }
        requires callable { F.IsAlwaysCallable resolve.now }
        ensures merged { OnOk result ((k : K) → MatchBool (is_some (find K.eq k base.now.entries))
            (IsMergedAt K.eq V.eq F.Fn resolve.now base.now.entries self.old.entries theirs.now.entries k
            (find K.eq k self.new.entries))
            (find K.eq k self.new.entries ≡ find K.eq k self.old.entries)) }
        ensures same { OnOk result (self.new ≡ record self.old { entries = self.new.entries }) }
    {
        for (key, _) in base.iter() {
            self.merge_key(base, theirs, key, resolve)?;
        }
        Ok(())
    }

    // Merges the keys that they added. Ours is what this map has.
    fn merge_added<F: Fn(&K, Option<&V>, Option<&V>, Option<&V>) -> Result<Option<V>, AllocError>>(
        &mut self,
        base: &HashTrieMap<K, V, H, A>,
        theirs: &HashTrieMap<K, V, H, A>,
        resolve: &F,
    ) -> Result<(), AllocError>
        requires clone_keys { (x y : K) → K.is_clone x y → y ≡ x }
        requires callable { F.IsAlwaysCallable resolve.now }
        ensures merged { OnOk result ((k : K)
            → MatchBool (is_none (find K.eq k base.now.entries) && is_some (find K.eq k theirs.now.entries))
            (IsMergedAt K.eq V.eq F.Fn resolve.now base.now.entries self.old.entries theirs.now.entries k
            (find K.eq k self.new.entries))
            (find K.eq k self.new.entries ≡ find K.eq k self.old.entries)) }
        ensures same { OnOk result (self.new ≡ record self.old { entries = self.new.entries }) }
    {
        for (key, _) in theirs.iter() {
            if !base.contains_key(key) {
                self.merge_key(base, theirs, key, resolve)?;
            }
        }
        Ok(())
    }
}

impl<
    K: Eq + Hash + Clone + Drop,
    V: PartialEq + Drop,
    H: BuildHasher + Clone + Drop,
    A: Allocator + Copy,
> HashTrieMap<K, V, H, A> {
    /// What two versions of this map have in one: a key that one side changed as that side has it, one that both changed alike as
    /// ours has it. Where both changed a key, and not alike, it has what `resolve` answers: a value, or nothing. `resolve` is handed
    /// the key, and its value in this map, in ours and in theirs. The hasher and the degree are those of ours.
    ///
    /// It goes over this map and then over theirs, and looks each key up in the others. Pairs that are taken over are shared; a key
    /// that `resolve` gives a value is cloned.
    ///
    /// The error means that `resolve` or the clone of a key failed, or that memory ran out; it comes, too, where there would be more
    /// than `usize::MAX` pairs.
    pub fn merge<F: Fn(&K, Option<&V>, Option<&V>, Option<&V>) -> Result<Option<V>, AllocError>>(
        &self,
        ours: &HashTrieMap<K, V, H, A>,
        theirs: &HashTrieMap<K, V, H, A>,
        resolve: F,
    ) -> Result<HashTrieMap<K, V, H, A>, AllocError>
        requires clone_hasher { (x y : H) → H.is_clone x y → y ≡ x }
        requires clone_keys { (x y : K) → K.is_clone x y → y ≡ x }
        requires callable { F.IsAlwaysCallable resolve }
        ensures pairs { IfOk result (λ m. (k : K) →
            IsMergedAt K.eq V.eq F.Fn resolve self.now.entries ours.now.entries theirs.now.entries k (find K.eq k m.entries)) }
        ensures values { IfOk result (λ m. (h : Option V → Option V → Option V → Option V) → SettlesBy F.Fn resolve h → (k : K)
            → value_of K.eq k m.entries ≡ merged_value V.eq h
            (value_of K.eq k self.now.entries) (value_of K.eq k ours.now.entries) (value_of K.eq k theirs.now.entries)) }
        ensures same { IfOk result (λ m. m ≡ record ours.now { entries = m.entries }) }
    {
        let mut map = ours.clone()?;
        map.merge_stored(self, theirs, &resolve)?;
        map.merge_added(self, theirs, &resolve)?;
        Ok(map)
    }
}
