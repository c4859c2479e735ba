//! Two maps walked together, where their keys have the same hashes.
ghost use Rattle.std.specs.Prelude.{◌≡◌, ◌≤◌, ◌-◌, ◌⊎◌, if◌then◌else◌, IfOk, IfSome, filter, true};
ghost use Rattle.std.specs.Option.{option_or};
ghost use Rattle.rpds_hash.specs.Kept.{keeps};
ghost use Rattle.rpds_hash_trie.specs.HashedMap.{AllHashed, find, key_hash};

use crate::map::hash_trie_map::{HashTrieMap, hash};
use rpds_core::size::total;
use rpds_hash_trie::root::Root;
use rpds_hash_trie::walk::Walk;
use std::alloc::{AllocError, Allocator};
use std::hash::{BuildHasher, Hash};

// Whether the hasher gives each key the hash that is kept beside it.
fn all_hashed<K: Hash, V, H: BuildHasher, A: Allocator>(hasher: &H, root: &Root<K, V, A>) -> bool
    ensures { result ≡ true → AllHashed (key_hash H.BuildHasher H.Hasher.Hasher K.hash_input hasher.now) root.now.entries }
{
    let mut walk = Walk::over(root);
    while let Some(stored) = walk.next() {
        if hash(hasher, &stored.entry.key) != stored.key_hash {
            return false;
        }
    }
    true
}

// Whether one of two hashers gives all keys of both roots the hashes that are kept beside them. The keys of the smaller one are hashed.
fn are_hashed_alike<K: Hash, V, H: BuildHasher, A: Allocator>(
    hasher: &H,
    root: &Root<K, V, A>,
    other_hasher: &H,
    other: &Root<K, V, A>,
    is_smaller: bool,
) -> bool
    ensures { result ≡ true → (AllHashed (key_hash H.BuildHasher H.Hasher.Hasher K.hash_input hasher.now) other.now.entries)
        ⊎ (AllHashed (key_hash H.BuildHasher H.Hasher.Hasher K.hash_input other_hasher.now) root.now.entries) }
{
    if is_smaller {
        all_hashed(other_hasher, root)
    } else {
        all_hashed(hasher, other)
    }
}

// How many of so many keys are kept, of which some are in another map too.
fn kept_of(size: usize, common: usize, both: bool) -> usize
    requires { common ≤ size }
    ensures { result ≡ (if both then common else size - common) }
{
    if both { common } else { size - common }
}

impl<K: Eq + Hash + Drop, V: Drop, H: BuildHasher + Clone + Drop, A: Allocator + Copy> HashTrieMap<
    K,
    V,
    H,
    A,
> {
    // The pairs of both maps, where both have one degree and this map's hasher gives the other's keys their hashes; else None.
    pub(crate) fn merged(
        &self,
        other: &HashTrieMap<K, V, H, A>,
    ) -> Result<Option<HashTrieMap<K, V, H, A>>, AllocError>
        requires clone_hasher { (x y : H) → H.is_clone x y → y ≡ x }
        ensures found { IfOk result (λ o. IfSome o (λ m. (k : K) → find K.eq k m.entries
            ≡ option_or (find K.eq k self.now.entries) (find K.eq k other.now.entries))) }
        ensures same { IfOk result (λ o. IfSome o (λ m. m ≡ record self.now { entries = m.entries })) }
    {
        if self.root.bits() != other.root.bits() || !all_hashed(&self.hasher, &other.root) {
            return Ok(None);
        }
        let theirs = other.size;
        let mut common = 0;
        let root = self.root.union(self.alloc, &other.root, &mut common)?;
        let size = total(self.size, theirs - common)?;
        let map = self.of_root(root, size)?;
        Ok(Some(map))
    }

    // The pairs whose keys the other map has too, if `both`, and else those whose keys it lacks, where both have one degree and one of
    // their hashers gives both maps' keys their hashes; else None.
    pub(crate) fn sifted(
        &self,
        other: &HashTrieMap<K, V, H, A>,
        both: bool,
    ) -> Result<Option<HashTrieMap<K, V, H, A>>, AllocError>
        requires clone_hasher { (x y : H) → H.is_clone x y → y ≡ x }
        ensures { let left = filter (keeps K.eq both other.now.entries) self.now.entries in
            IfOk result (λ o. IfSome o (λ m. m ≡ record self.now { entries = left })) }
    {
        let is_smaller = self.size < other.size;
        if self.root.bits() != other.root.bits()
            || !are_hashed_alike(
                &self.hasher,
                &self.root,
                &other.hasher,
                &other.root,
                is_smaller,
            )
        {
            return Ok(None);
        }
        let mut common = 0;
        let root = self.root.sift(self.alloc, &other.root, both, &mut common)?;
        let size = kept_of(self.size, common, both);
        let map = self.of_root(root, size)?;
        Ok(Some(map))
    }
}
