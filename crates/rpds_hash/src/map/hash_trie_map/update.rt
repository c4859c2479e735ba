//! The value of a key, made of the one that it had.
ghost use Rattle.std.specs.Prelude.{◌≡◌, ◌∷◌, Ok, IfOk, OnOk, OnErr};
ghost use Rattle.std.specs.Option.{option_map};
ghost use Rattle.rpds_core.specs.Calls.{FnOnceReturnsAtOption};
ghost use Rattle.rpds_hash_trie.specs.HashChanges.{IsPut};
ghost use Rattle.rpds_hash_trie.specs.HashedMap.{find};

use crate::map::hash_trie_map::HashTrieMap;
use std::alloc::{AllocError, Allocator};
use std::hash::{BuildHasher, Hash};

impl<K: Eq + Hash + Drop, V: Drop, H: BuildHasher + Clone + Drop, A: Allocator + Copy> HashTrieMap<
    K,
    V,
    H,
    A,
> {
    /// The map with what `change` answers as the value of the key, which takes the place of an equal key: a count, a sum, a
    /// list that grows. `change` is handed the value that the key has, or `None` where it is absent, and an error of it is
    /// handed on. Nothing is cloned but the hasher.
    ///
    /// The error means that `change` failed or that memory ran out; it comes, too, where there are `usize::MAX` pairs.
    pub fn update<F: FnOnce(Option<&V>) -> Result<V, AllocError>>(
        &self,
        key: K,
        change: F,
    ) -> Result<HashTrieMap<K, V, H, A>, AllocError>
        requires clone_hasher { (x y : H) → H.is_clone x y → y ≡ x }
        requires callable { F.IsAlwaysCallable change }
        ensures { let old = option_map (λ p. p.1) (find K.eq key self.now.entries) in
            IfOk result (λ m. (value : V) × FnOnceReturnsAtOption F.FnOnce change old (Ok value)
            × IsPut K.eq (key, value) self.now m
            × ((k : K) → find K.eq k m.entries ≡ find K.eq k ((key, value) ∷ self.now.entries))) }
    {
        let mut map = self.clone()?;
        map.update_mut(key, change)?;
        Ok(map)
    }

    /// [`update`](HashTrieMap::update), in place. An error leaves the map as it is.
    ///
    /// Where no other map shares the key's pair, [`value_mut`](HashTrieMap::value_mut) writes to its value in place, and is
    /// faster.
    pub fn update_mut<F: FnOnce(Option<&V>) -> Result<V, AllocError>>(
        &mut self,
        key: K,
        change: F,
    ) -> Result<(), AllocError>
        requires { F.IsAlwaysCallable change }
        ensures ok { let old = option_map (λ p. p.1) (find K.eq key self.old.entries) in
            OnOk result ((value : V) × FnOnceReturnsAtOption F.FnOnce change old (Ok value)
            × IsPut K.eq (key, value) self.old self.new
            × ((k : K) → find K.eq k self.new.entries ≡ find K.eq k ((key, value) ∷ self.old.entries))) }
        ensures err { OnErr result (self.new ≡ self.old) }
    {
        let value = change(self.get(&key))?;
        self.insert_mut(key, value)
    }
}
