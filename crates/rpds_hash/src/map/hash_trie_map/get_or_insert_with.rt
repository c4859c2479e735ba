//! The value of a key, lent to be written to: it is made and put in where the key is absent.
ghost use Rattle.std.specs.Prelude.{◌≡◌, None, Ok, Some, IfOk, MatchOption, OnErr, OnOk};
ghost use Rattle.std.specs.Borrow.{sem};
ghost use Rattle.std.specs.Fn.{FnOnceReturns};
ghost use Rattle.std.specs.Option.{option_map};
ghost use Rattle.rpds_hash.specs.Altered.{IsAltered};
ghost use Rattle.rpds_hash_trie.specs.HashedMap.{find};

use crate::map::hash_trie_map::HashTrieMap;
use std::alloc::{AllocError, Allocator};
use std::hash::{BuildHasher, Hash};

// A clone of a key.
fn cloned_key<K: Clone>(key: &K) -> Result<K, AllocError>
    requires { (x y : K) → K.is_clone x y → y ≡ x }
    ensures { IfOk result (λ clone. clone ≡ key.now) }
{
    key.clone()
}

impl<K: Eq + Hash + Clone + Drop, V: Clone + Drop, H: BuildHasher, A: Allocator + Copy> HashTrieMap<
    K,
    V,
    H,
    A,
> {
    ghost use Rattle.rpds_hash.specs.HashFilled.{lends_or_puts};
    ghost use Rattle.rpds_hash.specs.HashMapLends.{lends_value};

    /// The value of the key, to write to. Where the key is absent, what `make` answers is put in first; where it is there, its stored
    /// key stays and `make` isn't called. Once the reference ends, that value alone differs.
    ///
    /// It takes what [`value_mut`](HashTrieMap::value_mut) takes where the key is there, and else what
    /// [`insert_mut`](HashTrieMap::insert_mut) takes and a clone of the key.
    ///
    /// # Errors
    ///
    /// Where `make` failed or memory ran out; also where the key is absent and there are `usize::MAX` pairs. The map stays as it is.
    /// The contract leaves open that the new pair is in, since it doesn't tell that a path which was just made is shared with no
    /// other map. No run does that.
    pub fn get_or_insert_with<'a, F: FnOnce() -> Result<V, AllocError>>(
        &'a mut self,
        key: K,
        make: F,
    ) -> Result<&'a mut V, AllocError>
        requires callable { find K.eq key self.old.entries ≡ None → F.IsAlwaysCallable make }
        requires clone_keys { (x y : K) → K.is_clone x y → y ≡ x }
        requires clone_values { (x y : V) → V.is_clone x y → y ≡ x }

        ensures* writes_back { sem 𝓛
            (lends_or_puts K.row V.row H.row A.row H.Hasher.row K.Hash H.BuildHasher H.Hasher.Hasher A.Allocator self.entry key
            (λ v. FnOnceReturns F.FnOnce make tt (Ok v)) result) }
        ensures returned { let old = option_map (λ p. p.1) (find K.eq key self.old.entries) in
            IfOk result (λ r. MatchOption old (FnOnceReturns F.FnOnce make tt (Ok r.now)) (λ v. r.now ≡ v)) }
    {
        if self.contains_key(&key) {
            return self.stored_mut(&key);
        }
        // For its clause, before and after: the keys are pairwise unequal.
        self.prove_sound();
        let probe = cloned_key(&key)?;
        self.put_made(key, make)?;
        self.prove_sound();
        self.stored_mut(&probe)
    }

    // Puts the key in with what `make` answers.
    fn put_made<F: FnOnce() -> Result<V, AllocError>>(
        &mut self,
        key: K,
        make: F,
    ) -> Result<(), AllocError>
        requires { F.IsAlwaysCallable make }
        ensures ok { OnOk result ((value : V) × FnOnceReturns F.FnOnce make tt (Ok value)
            × IsAltered K.eq key (Some value) self.old self.new) }
        ensures err { OnErr result (self.new ≡ self.old) }
    {
        let value = make()?;
        self.insert_mut(key, value)
    }

    // The value of a key that is there, to write to.
    fn stored_mut<'a>(&'a mut self, key: &K) -> Result<&'a mut V, AllocError>
        requires clone_keys { (x y : K) → K.is_clone x y → y ≡ x }
        requires clone_values { (x y : V) → V.is_clone x y → y ≡ x }

        ensures* writes_back { sem 𝓛
            (lends_value K.row V.row H.row A.row H.Hasher.row K.Hash H.BuildHasher H.Hasher.Hasher A.Allocator self.entry K.eq key.now result) }
        ensures returned { let old = option_map (λ p. p.1) (find K.eq key.now self.old.entries) in
            IfOk result (λ r. old ≡ Some r.now) }
    {
        match self.value_mut(key) {
            Ok(value) => Ok(value),
            Err(_) => Err(AllocError),
        }
    }
}
