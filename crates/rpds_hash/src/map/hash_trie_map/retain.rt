//! The pairs of a map that pass a test.
ghost use Rattle.std.specs.Prelude.{◌≡◌, Bool, OnOk, OnErr};
ghost use Rattle.std.specs.Iterator.{ActsAsOnTwo};
ghost use Rattle.std.specs.List.Retain.{IsFiltered};
ghost use Rattle.rpds_core.specs.Calls.{CalledAtEntry};
ghost use Rattle.rpds_core.specs.OptionFilter.{option_filter};
ghost use Rattle.rpds_hash_trie.specs.HashedMap.{find};

use crate::map::hash_trie_map::HashTrieMap;
use std::alloc::{AllocError, Allocator};
use std::hash::{BuildHasher, Hash};

impl<K: Eq + Hash + Drop, V: Drop, H: BuildHasher + Clone + Drop, A: Allocator + Copy> HashTrieMap<
    K,
    V,
    H,
    A,
> {
    /// Keeps the pairs of which `keep` says true, in the order that they had. It is called once at each pair, in that order.
    /// An error leaves the map as it is: what stays is another map, which takes its place at the end.
    ///
    /// The error means that memory ran out.
    pub fn retain<F: FnMut(&K, &V) -> bool>(&mut self, mut keep: F) -> Result<(), AllocError>
        requires clone_hasher { (x y : H) → H.is_clone x y → y ≡ x }
        requires callable { F.IsAlwaysCallable keep }
        ensures ok { OnOk result
            (IsFiltered (CalledAtEntry F.FnMut) keep self.old.entries self.new.entries) }
        ensures found { OnOk result ((test : K × V → Bool) → ActsAsOnTwo F.FnMut keep (λ k v. test (k.now, v.now)) → (k : K)
            → find K.eq k self.new.entries ≡ option_filter test (find K.eq k self.old.entries)) }
        ensures same { OnOk result (self.new ≡ record self.old { entries = self.new.entries }) }
        ensures err { OnErr result (self.new ≡ self.old) }
    {
        let mut left = self.clone()?;
        for (key, value) in self.iter() {
            // For its clause: the keys are pairwise unequal.
            let _size = left.size();
            let stays = keep(key, value);
            if !stays {
                left.remove_mut(key)?;
            }
        }
        *self = left;
        Ok(())
    }
}
