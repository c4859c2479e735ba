//! The value that a key had before it is replaced or taken out.
ghost use Rattle.std.specs.Prelude.{◌≡◌, ◌∷◌, IfOk, OnOk, OnErr};
ghost use Rattle.std.specs.Option.{option_map};
ghost use Rattle.rpds_hash_trie.specs.HashChanges.{IsPut};
ghost use Rattle.rpds_hash_trie.specs.HashedMap.{find, without};

use crate::map::hash_trie_map::HashTrieMap;
use rpds_core::key::HashKey;
use std::alloc::{AllocError, Allocator};
use std::hash::{BuildHasher, Hash};

// A clone of the value of the key, if it is there.
fn value_of<K: Eq + Hash, V: Clone, H: BuildHasher, A: Allocator, Q: HashKey<K>>(
    map: &HashTrieMap<K, V, H, A>,
    key: Q,
) -> Result<Option<V>, AllocError>
    requires { (x y : V) → V.is_clone x y → y ≡ x }
    ensures { IfOk result (λ value.
        value ≡ option_map (λ p. p.1) (find Q.same (Q.seen key) map.now.entries)) }
{
    match map.get(key) {
        None => Ok(None),
        Some(value) => Ok(Some(value.clone()?)),
    }
}

impl<K: Eq + Hash + Drop, V: Clone + Drop, H: BuildHasher, A: Allocator + Copy> HashTrieMap<
    K,
    V,
    H,
    A,
> {
    /// Puts the pair in, in place of an equal key and its value, and returns a clone of that value. An error leaves the map as
    /// it is.
    ///
    /// The error means that memory ran out or that the clone failed; it comes, too, where there are `usize::MAX` pairs.
    pub fn replace(&mut self, key: K, value: V) -> Result<Option<V>, AllocError>
        requires { (x y : V) → V.is_clone x y → y ≡ x }
        ensures value { IfOk result (λ old.
            old ≡ option_map (λ p. p.1) (find K.eq key self.old.entries)) }
        ensures ok { OnOk result (IsPut K.eq (key, value) self.old self.new) }
        ensures found { OnOk result ((k : K)
            → find K.eq k self.new.entries ≡ find K.eq k ((key, value) ∷ self.old.entries)) }
        ensures err { OnErr result (self.new ≡ self.old) }
    {
        let old = value_of(self, &key)?;
        self.insert_mut(key, value)?;
        Ok(old)
    }

    /// Takes the key out, and returns a clone of the value that it had. An error leaves the map as it is.
    ///
    /// The error means that memory ran out or that the clone failed.
    pub fn take<Q: HashKey<K>>(&mut self, key: Q) -> Result<Option<V>, AllocError>
        requires { (x y : V) → V.is_clone x y → y ≡ x }
        ensures value { IfOk result (λ old.
            old ≡ option_map (λ p. p.1) (find Q.same (Q.seen key) self.old.entries)) }
        ensures ok { OnOk result
            (self.new ≡ record self.old { entries = without Q.same (Q.seen key) self.old.entries }) }
        ensures err { OnErr result (self.new ≡ self.old) }
    {
        let old = value_of(self, key)?;
        self.remove_mut(key)?;
        Ok(old)
    }
}
