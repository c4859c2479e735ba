//! A key put in, given another value, or taken out, by what it has.
ghost use Rattle.std.specs.Prelude.{◌≡◌, Ok, Option, IfOk, OnOk, OnErr};
ghost use Rattle.std.specs.Option.{option_map};
ghost use Rattle.rpds_core.specs.Calls.{FnOnceReturnsAtOption};
ghost use Rattle.rpds_hash.specs.Altered.{IsAltered};
ghost use Rattle.rpds_hash_trie.specs.HashedMap.{find};

use crate::map::hash_trie_map::HashTrieMap;
use std::alloc::{AllocError, Allocator};
use std::hash::{BuildHasher, Hash};

impl<K: Eq + Hash + Drop, V: Drop, H: BuildHasher + Clone + Drop, A: Allocator + Copy> HashTrieMap<
    K,
    V,
    H,
    A,
> {
    /// The map in which the key has what `change` answers: a value, which takes the place of an equal key, or nothing, and then the
    /// key is absent. `change` is handed the value that the key has, or `None` where it is absent, and an error of it is handed on.
    /// Nothing is cloned but the hasher.
    ///
    /// The error means that `change` failed or that memory ran out; it comes, too, where a value comes and there are `usize::MAX`
    /// pairs.
    pub fn alter<F: FnOnce(Option<&V>) -> Result<Option<V>, AllocError>>(
        &self,
        key: K,
        change: F,
    ) -> Result<HashTrieMap<K, V, H, A>, AllocError>
        requires clone_hasher { (x y : H) → H.is_clone x y → y ≡ x }
        requires callable { F.IsAlwaysCallable change }
        ensures { let old = option_map (λ p. p.1) (find K.eq key self.now.entries) in
            IfOk result (λ m. (value : Option V) × FnOnceReturnsAtOption F.FnOnce change old (Ok value)
            × IsAltered K.eq key value self.now m) }
    {
        let mut map = self.clone()?;
        map.alter_mut(key, change)?;
        Ok(map)
    }

    /// [`alter`](HashTrieMap::alter), in place. An error leaves the map as it is.
    pub fn alter_mut<F: FnOnce(Option<&V>) -> Result<Option<V>, AllocError>>(
        &mut self,
        key: K,
        change: F,
    ) -> Result<(), AllocError>
        requires { F.IsAlwaysCallable change }
        ensures ok { let old = option_map (λ p. p.1) (find K.eq key self.old.entries) in
            OnOk result ((value : Option V) × FnOnceReturnsAtOption F.FnOnce change old (Ok value)
            × IsAltered K.eq key value self.old self.new) }
        ensures err { OnErr result (self.new ≡ self.old) }
    {
        match change(self.get(&key))? {
            Some(value) => self.insert_mut(key, value),
            None => {
                self.remove_mut(&key)?;
                Ok(())
            }
        }
    }
}
