//! A map with other values.
ghost use Rattle.std.specs.Prelude.{◌≡◌, List, Ok, IfOk};
ghost use Rattle.std.specs.Fn.{FnReturnsAt};
ghost use Rattle.std.specs.Option.{option_map};
ghost use Rattle.rpds_core.specs.Calls.{HaveValuesOf};
ghost use Rattle.rpds_hash_trie.specs.HashedMap.{find};

use crate::map::hash_trie_map::HashTrieMap;
use std::alloc::{AllocError, Allocator};
use std::hash::{BuildHasher, Hash};

impl<
    K: Eq + Hash + Clone + Drop,
    V,
    H: BuildHasher + Clone + Drop,
    A: Allocator + Copy,
> HashTrieMap<K, V, H, A> {
    /// The map of the same keys, each with what `change` answers at its value, which may be of another type. The hasher, the degree
    /// and the order of a walk stay. No key is hashed or compared.
    ///
    /// The error means that `change` or a clone failed, or that memory ran out.
    pub fn map_values<W: Drop, F: Fn(&V) -> Result<W, AllocError>>(
        &self,
        change: F,
    ) -> Result<HashTrieMap<K, W, H, A>, AllocError>
        requires clone_hasher { (x y : H) → H.is_clone x y → y ≡ x }
        requires clone_keys { (x y : K) → K.is_clone x y → y ≡ x }
        requires callable { F.IsAlwaysCallable change }
        ensures ok { IfOk result (λ m. HaveValuesOf F.Fn change self.now.entries m.entries) }
        ensures found { IfOk result (λ m. (pairs : List (K × W)) × HaveValuesOf F.Fn change self.now.entries pairs
            × ((k : K) → find K.eq k m.entries ≡ find K.eq k pairs)) }
        ensures values { IfOk result (λ m. (h : V → W) → ((x : V) (y : W) → FnReturnsAt F.Fn change x (Ok y) → y ≡ h x) → (k : K)
            → option_map (λ p. p.1) (find K.eq k m.entries) ≡ option_map h (option_map (λ p. p.1) (find K.eq k self.now.entries))) }
        ensures degree { IfOk result (λ m. m.degree ≡ self.now.degree) }
        ensures hasher { IfOk result (λ m. m.hasher ≡ self.now.hasher) }
    {
        let root = self.root.map_values(self.alloc, &change)?;
        self.of_root(root, self.size)
    }
}
