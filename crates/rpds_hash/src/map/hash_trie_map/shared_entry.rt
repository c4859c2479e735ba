//! A pair that several maps share, and what a key has in one map, taken over into another.
ghost use Rattle.std.specs.Prelude.{◌≡◌, ◌+◌, ◌≤◌, ◌∷◌, IfOk, OnErr, OnOk, length};
ghost use Rattle.std.specs.Option.{option_map};
ghost use Rattle.rpds_hash.specs.Altered.{IsGiven};
ghost use Rattle.rpds_hash_trie.specs.HashChanges.{IsPut};
ghost use Rattle.rpds_hash_trie.specs.HashedMap.{find};

use crate::map::hash_trie_map::{HashTrieMap, hash};
use rpds_core::key::HashKey;
use rpds_core::map::entry::Entry;
use rpds_core::size::one_more;
use rpds_hash_trie::node::EntryWithHash;
use std::alloc::{AllocError, Allocator};
use std::hash::{BuildHasher, Hash};
use std::rc::Rc;

impl<K: Eq + Hash + Drop, V: Drop, H: BuildHasher, A: Allocator + Copy> HashTrieMap<K, V, H, A> {
    /// The stored pair of the key, if it is there, for [`insert_shared`](HashTrieMap::insert_shared) into other maps. It allocates
    /// nothing, and fails only on a reference count overflow.
    pub fn shared_entry<Q: HashKey<K>>(
        &self,
        key: Q,
    ) -> Result<Option<Rc<Entry<K, V>, A>>, AllocError>
        ensures { IfOk result (λ entry. option_map (λ e. (e.value.key, e.value.value)) entry
            ≡ find Q.same (Q.seen key) self.now.entries) }
    {
        let hash = hash(&self.hasher, &key);
        self.root.shared_entry(key, hash)
    }

    /// [`insert_shared`](HashTrieMap::insert_shared), in place. An error leaves the map as it is.
    pub fn insert_shared_mut(&mut self, entry: Rc<Entry<K, V>, A>) -> Result<(), AllocError>
        ensures ok { OnOk result (IsPut K.eq (entry.value.key, entry.value.value) self.old self.new) }
        ensures found { OnOk result ((k : K) → find K.eq k self.new.entries
            ≡ find K.eq k ((entry.value.key, entry.value.value) ∷ self.old.entries)) }
        ensures size { OnOk result (length self.new.entries ≤ length self.old.entries + 1) }
        ensures err { OnErr result (self.new ≡ self.old) }
    {
        let more = one_more(self.size)?;
        let key_hash = hash(&self.hasher, &entry.key);
        let stored = EntryWithHash { entry, key_hash };
        if self.root.insert_mut(self.alloc, stored)? {
            self.size = more;
        }
        Ok(())
    }

    /// [`copy_from`](HashTrieMap::copy_from), in place. An error leaves the map as it is.
    pub fn copy_from_mut<Q: HashKey<K>>(
        &mut self,
        other: &HashTrieMap<K, V, H, A>,
        key: Q,
    ) -> Result<(), AllocError>
        ensures ok { OnOk result
            (IsGiven K.eq Q.same (Q.seen key) (find Q.same (Q.seen key) other.now.entries) self.old self.new) }
        ensures err { OnErr result (self.new ≡ self.old) }
    {
        match other.shared_entry(key)? {
            Some(entry) => self.insert_shared_mut(entry),
            None => {
                self.remove_mut(key)?;
                Ok(())
            }
        }
    }
}

impl<K: Eq + Hash + Drop, V: Drop, H: BuildHasher + Clone + Drop, A: Allocator + Copy> HashTrieMap<
    K,
    V,
    H,
    A,
> {
    /// The map with a pair in it that other maps may have too, in place of an equal key and its value. Neither the key nor the value
    /// is cloned; the key is hashed by this map's hasher.
    ///
    /// The error means that memory ran out; it comes, too, where there are `usize::MAX` pairs.
    pub fn insert_shared(
        &self,
        entry: Rc<Entry<K, V>, A>,
    ) -> Result<HashTrieMap<K, V, H, A>, AllocError>
        requires clone_hasher { (x y : H) → H.is_clone x y → y ≡ x }
        ensures ok { IfOk result (IsPut K.eq (entry.value.key, entry.value.value) self.now) }
        ensures found { IfOk result (λ m. (k : K) → find K.eq k m.entries
            ≡ find K.eq k ((entry.value.key, entry.value.value) ∷ self.now.entries)) }
        ensures size { IfOk result (λ m. length m.entries ≤ length self.now.entries + 1) }
    {
        let mut map = self.clone()?;
        map.insert_shared_mut(entry)?;
        Ok(map)
    }

    /// The map in which the key has what it has in the other one: the stored pair there, which both maps then share, or nothing.
    /// Neither a key nor a value is cloned.
    ///
    /// The error means that memory ran out; it comes, too, where a pair comes and there are `usize::MAX` pairs.
    pub fn copy_from<Q: HashKey<K>>(
        &self,
        other: &HashTrieMap<K, V, H, A>,
        key: Q,
    ) -> Result<HashTrieMap<K, V, H, A>, AllocError>
        requires clone_hasher { (x y : H) → H.is_clone x y → y ≡ x }
        ensures { IfOk result (IsGiven K.eq Q.same (Q.seen key) (find Q.same (Q.seen key) other.now.entries) self.now) }
    {
        let mut map = self.clone()?;
        map.copy_from_mut(other, key)?;
        Ok(map)
    }
}
