//! The value of a key, lent to be written to: the path to it is made the map's own first.
ghost use Rattle.std.specs.Prelude.{◌≡◌, [], Ok, Err, None, IfOk};
ghost use Rattle.std.specs.Option.{option_map};
ghost use Rattle.std.specs.Borrow.{sem};
ghost use Rattle.rpds_core.specs.ValueLends.{Tells};
ghost use Rattle.rpds_core.specs.declared.lend.ValueMutError.TheVariants.{Absent};
ghost use Rattle.rpds_hash_trie.specs.HashedMap.{find};

use crate::map::hash_trie_map::{HashTrieMap, hash};
use rpds_core::key::HashKey;
use rpds_core::lend::{ValueMutError, absent_as_none};
use std::alloc::{AllocError, Allocator};
use std::hash::{BuildHasher, Hash};

impl<K: Eq + Hash + Clone + Drop, V: Clone + Drop, H: BuildHasher, A: Allocator + Copy> HashTrieMap<
    K,
    V,
    H,
    A,
> {
    ghost use Rattle.rpds_hash.specs.HashMapLends.{lends_value};

    /// The value of the key, to write to: `None` where the key is absent. It does what [`HashTrieMap::value_mut`] does.
    ///
    /// In this type the contract says which value is lent, and nothing of what the map holds afterwards: not that a
    /// write changes that value alone, nor that the pairs stay after `None` or an error. The contract of `value_mut`
    /// says all of that.
    ///
    /// # Errors
    ///
    /// Where a copy of a node or a clone of the key or the value failed.
    pub fn get_mut<'a, Q: HashKey<K>>(&'a mut self, key: Q) -> Result<Option<&'a mut V>, AllocError>
        requires clone_keys { (x y : K) → K.is_clone x y → y ≡ x }
        requires clone_values { (x y : V) → V.is_clone x y → y ≡ x }

        ensures found { IfOk result (λ value. option_map (λ v. v.now) value ≡ option_map (λ p. p.1)
            (find Q.same (Q.seen key) self.old.entries)) }
        ensures empty { self.old.entries ≡ [] → result ≡ Ok None }
    {
        absent_as_none(self.value_mut(key))
    }

    /// The value of the key, to write to. Once the reference ends that value alone differs: the stored key, all other
    /// pairs and their order are as before.
    ///
    /// Each node on the way to the key that other versions share is copied, two allocations each, and so are
    /// the key and its value where their entry is shared; a map that shares none of them takes no memory. Entries of
    /// one hash keep their order.
    ///
    /// # Errors
    ///
    /// `Absent` where the key isn't there, and `NoMemory` where a copy or a clone failed. Both leave what the map
    /// holds, and an empty map returns `Absent` without an allocation.
    pub fn value_mut<'a, Q: HashKey<K>>(&'a mut self, key: Q) -> Result<&'a mut V, ValueMutError>
        requires clone_keys { (x y : K) → K.is_clone x y → y ≡ x }
        requires clone_values { (x y : V) → V.is_clone x y → y ≡ x }

        ensures* writes_back { sem 𝓛
            (lends_value K.row V.row H.row A.row H.Hasher.row K.Hash H.BuildHasher H.Hasher.Hasher A.Allocator self.entry Q.same (Q.seen key) result) }
        ensures returned { Tells (option_map (λ p. p.1) (find Q.same (Q.seen key) self.old.entries)) result }
        ensures empty { self.old.entries ≡ [] → result ≡ Err Absent }
    {
        if self.size == 0 {
            return Err(ValueMutError::Absent);
        }
        let hash = hash(&self.hasher, &key);
        self.root.value_mut(key, hash)
    }
}
