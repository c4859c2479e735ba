//! Maps made of two maps.
ghost use Rattle.std.specs.Prelude.{◌≡◌, if◌then◌else◌, None, filter, is_none, is_some, IfOk};
ghost use Rattle.std.specs.Option.{option_or, option_xor};
ghost use Rattle.rpds_hash.specs.Kept.{keeps};
ghost use Rattle.rpds_hash_trie.specs.HashedMap.{find};

use crate::map::hash_trie_map::HashTrieMap;
use std::alloc::{AllocError, Allocator};
use std::hash::{BuildHasher, Hash};

impl<K: Eq + Hash + Drop, V: Drop, H: BuildHasher + Clone + Drop, A: Allocator + Copy> HashTrieMap<
    K,
    V,
    H,
    A,
> {
    /// The pairs of this map whose keys are in the other too, in the order that they have. None is cloned.
    ///
    /// Both tries are walked together if they have one degree, and if the hasher of one of them gives the other's keys their stored
    /// hashes; a walk over the smaller map, which hashes each key, tests that. What only one of them has at a place is passed over, so the
    /// smaller map sets the cost. Else each key of this map is looked up in the other.
    pub fn intersection(
        &self,
        other: &HashTrieMap<K, V, H, A>,
    ) -> Result<HashTrieMap<K, V, H, A>, AllocError>
        requires clone_hasher { (x y : H) → H.is_clone x y → y ≡ x }
        ensures ok { let both = filter (λ p. is_some (find K.eq p.0 other.now.entries)) self.now.entries in
            IfOk result (λ m. m ≡ record self.now { entries = both }) }
        ensures found { IfOk result (λ m. (k : K) → find K.eq k m.entries
            ≡ (if is_some (find K.eq k other.now.entries) then find K.eq k self.now.entries else None)) }
    {
        self.kept_by(other, true)
    }

    /// The pairs of this map whose keys aren't in the other, in the order that they have. None is cloned. It costs what an
    /// [`intersection`](HashTrieMap::intersection) costs, and shares what only this map has at a place.
    pub fn difference(
        &self,
        other: &HashTrieMap<K, V, H, A>,
    ) -> Result<HashTrieMap<K, V, H, A>, AllocError>
        requires clone_hasher { (x y : H) → H.is_clone x y → y ≡ x }
        ensures ok { let left = filter (λ p. is_none (find K.eq p.0 other.now.entries)) self.now.entries in
            IfOk result (λ m. m ≡ record self.now { entries = left }) }
        ensures found { IfOk result (λ m. (k : K) → find K.eq k m.entries
            ≡ (if is_none (find K.eq k other.now.entries) then find K.eq k self.now.entries else None)) }
    {
        self.kept_by(other, false)
    }

    // The pairs whose keys the other map has too, if `both`, and else those whose keys it lacks.
    fn kept_by(
        &self,
        other: &HashTrieMap<K, V, H, A>,
        both: bool,
    ) -> Result<HashTrieMap<K, V, H, A>, AllocError>
        requires clone_hasher { (x y : H) → H.is_clone x y → y ≡ x }
        ensures { let left = filter (keeps K.eq both other.now.entries) self.now.entries in
            IfOk result (λ m. m ≡ record self.now { entries = left }) }
    {
        match self.sifted(other, both)? {
            Some(map) => Ok(map),
            None => self.kept_by_keys(other, both),
        }
    }

    // The same, by a look-up for each key of this map.
    fn kept_by_keys(
        &self,
        other: &HashTrieMap<K, V, H, A>,
        both: bool,
    ) -> Result<HashTrieMap<K, V, H, A>, AllocError>
        requires clone_hasher { (x y : H) → H.is_clone x y → y ≡ x }
        ensures { let left = filter (keeps K.eq both other.now.entries) self.now.entries in
            IfOk result (λ m. m ≡ record self.now { entries = left }) }
    {
        let mut left = self.clone()?;
        left.retain(|key, _value| other.contains_key(key) == both)?;
        Ok(left)
    }

    /// The pairs of both maps; where both have a key, this map's pair. None is cloned: the other's pairs are shared.
    ///
    /// Both tries are walked together if they have one degree, and if this map's hasher gives the other's keys their stored hashes; a
    /// walk over the other map, which hashes each key, tests that. What one of them alone has at a place is shared. Else the other's new
    /// pairs are put in one by one, a path for each.
    ///
    /// The error means that memory ran out; it comes, too, where there would be more than `usize::MAX` pairs.
    pub fn union(
        &self,
        other: &HashTrieMap<K, V, H, A>,
    ) -> Result<HashTrieMap<K, V, H, A>, AllocError>
        requires clone_hasher { (x y : H) → H.is_clone x y → y ≡ x }
        ensures found { IfOk result (λ m. (k : K) → find K.eq k m.entries
            ≡ option_or (find K.eq k self.now.entries) (find K.eq k other.now.entries)) }
        ensures same { IfOk result (λ m. m ≡ record self.now { entries = m.entries }) }
    {
        match self.merged(other)? {
            Some(map) => Ok(map),
            None => self.with_each_of(other),
        }
    }

    // The same, by one call for each of the other's pairs.
    fn with_each_of(
        &self,
        other: &HashTrieMap<K, V, H, A>,
    ) -> Result<HashTrieMap<K, V, H, A>, AllocError>
        requires clone_hasher { (x y : H) → H.is_clone x y → y ≡ x }
        ensures found { IfOk result (λ m. (k : K) → find K.eq k m.entries
            ≡ option_or (find K.eq k self.now.entries) (find K.eq k other.now.entries)) }
        ensures same { IfOk result (λ m. m ≡ record self.now { entries = m.entries }) }
    {
        let mut both = self.clone()?;
        for (key, _) in other.iter() {
            if !self.contains_key(key) {
                both.copy_from_mut(other, key)?;
            }
        }
        Ok(both)
    }

    /// The pairs of either map whose keys aren't in the other: the [`union`](HashTrieMap::union) of both differences. The error means
    /// the same as there.
    pub fn symmetric_difference(
        &self,
        other: &HashTrieMap<K, V, H, A>,
    ) -> Result<HashTrieMap<K, V, H, A>, AllocError>
        requires clone_hasher { (x y : H) → H.is_clone x y → y ≡ x }
        ensures found { IfOk result (λ m. (k : K) → find K.eq k m.entries
            ≡ option_xor (find K.eq k self.now.entries) (find K.eq k other.now.entries)) }
        ensures same { IfOk result (λ m. m ≡ record self.now { entries = m.entries }) }
    {
        let others = other.difference(self)?;
        let left = self.difference(other)?;
        left.union(&others)
    }
}
