//! What changed from one version of a map to another.
ghost use Rattle.std.specs.Prelude.{◌≡◌, if◌then◌else◌, IfSome, None, Some, length, ⊤};
ghost use Rattle.std.specs.Iterator.{at_most, UpTo};
ghost use Rattle.std.specs.Iterator.SizeHint.{IsWithinCount};
ghost use Rattle.std.specs.Map.Iter.{TakesFirst, ShowsInOrder};
ghost use Rattle.std.specs.Option.{option_map};
ghost use Rattle.rpds_hash.specs.HashDifferences.{added, change_of, change_value, changed, differences};
ghost use Rattle.rpds_hash.specs.HashMerges.{differ};
ghost use Rattle.rpds_hash_trie.specs.HashedMap.{find, key_hash, IsHashed};

use crate::map::hash_trie_map::{DefaultBuildHasher, HashTrieMap, Iter};
use rpds_core::change::MapChange;
use std::alloc::{AllocError, Allocator, Global};
use std::hash::{BuildHasher, Hash};
use std::iter::FusedIterator;
use std::marker::Model;

/// The changes from one version of a map to another: what became of the older one's pairs, in its order, and then the pairs that the
/// newer one has beyond it, in the order of that.
///
/// It goes over both, and holds a stack of 65 places for each. All steps together enter each node of both once, and look each key up in
/// the other map, also in what the two share. It takes no memory.
#[derive(Drop)]
pub struct Diff<
    'a,
    K: Eq + Hash,
    V: PartialEq,
    H: BuildHasher = DefaultBuildHasher,
    A: Allocator = Global,
    G: BuildHasher = DefaultBuildHasher,
    B: Allocator = Global,
> {
    old: &'a HashTrieMap<K, V, H, A>,
    new: &'a HashTrieMap<K, V, G, B>,
    old_pairs: Iter<'a, K, V, A>,
    new_pairs: Iter<'a, K, V, B>,
}

impl<
    'a,
    K: Eq + Hash,
    V: PartialEq,
    H: BuildHasher,
    A: Allocator,
    G: BuildHasher,
    B: Allocator,
> Model for Diff<'a, K, V, H, A, G, B> {
    ghost use Rattle.std.specs.Prelude.{◌++◌, List, Option};
    ghost use Rattle.rpds_hash.specs.HashDifferences.{added, changed};

    ghost Value = { List (K × (Option V × Option V)) };

    ghost view = { λ it. changed K.eq V.eq it.new.now.entries it.old_pairs ++ added K.eq it.old.now.entries it.new_pairs };
}

// What became of a pair in the newer map.
fn change_from<'a, K: Eq + Hash, V: PartialEq, G: BuildHasher, B: Allocator>(
    key: &'a K,
    before: &'a V,
    new: &'a HashTrieMap<K, V, G, B>,
) -> Option<MapChange<'a, K, V>>
    ensures { let change = change_of (key.now, before.now) (find K.eq key.now new.now.entries) in
        option_map change_value result ≡ (if differ V.eq change.1.0 change.1.1 then Some change else None) }
{
    let Some((stored, after)) = new.get_key_value(key) else {
        return Some(MapChange::Removed(key, before));
    };
    if before == after {
        None
    } else {
        Some(MapChange::Changed(stored, before, after))
    }
}

// The first change at the pairs that are left of the older map.
fn next_changed<'a, K: Eq + Hash, V: PartialEq, A: Allocator, G: BuildHasher, B: Allocator>(
    pairs: &mut Iter<'a, K, V, A>,
    new: &'a HashTrieMap<K, V, G, B>,
) -> Option<MapChange<'a, K, V>>
    ensures { let left = changed K.eq V.eq new.now.entries in
        TakesFirst change_value (left pairs.old) result (left pairs.new) }
{
    while let Some((key, before)) = pairs.next() {
        if let Some(change) = change_from(key, before, new) {
            return Some(change);
        }
    }
    None
}

// The first of the pairs that are left of the newer map whose key the older one lacks.
fn next_added<'a, K: Eq + Hash, V, H: BuildHasher, A: Allocator, B: Allocator>(
    pairs: &mut Iter<'a, K, V, B>,
    old: &'a HashTrieMap<K, V, H, A>,
) -> Option<MapChange<'a, K, V>>
    ensures { let left = added K.eq old.now.entries in
        TakesFirst change_value (left pairs.old) result (left pairs.new) }
{
    while let Some((key, value)) = pairs.next() {
        if !old.contains_key(key) {
            return Some(MapChange::Added(key, value));
        }
    }
    None
}

impl<
    'a,
    K: Eq + Hash,
    V: PartialEq,
    H: BuildHasher,
    A: Allocator,
    G: BuildHasher,
    B: Allocator,
> Iterator for Diff<'a, K, V, H, A, G, B> {
    type Item = MapChange<'a, K, V>;

    ghost next_gives = { TakesFirst change_value };

    ghost remaining = { λ it. at_most (length it) };

    #[inline(always)]
    fn next(&mut self) -> Option<MapChange<'a, K, V>> {
        match next_changed(&mut self.old_pairs, self.new) {
            Some(change) => Some(change),
            None => next_added(&mut self.new_pairs, self.old),
        }
    }

    /// How many changes are left is not known.
    fn size_hint(&self) -> (usize, Option<usize>)
        ensures unknown { result ≡ (0, None) }
        ensures lower { IsWithinCount result.0 (at_most (length self.now)) }
        ensures upper { IfSome result.1 (UpTo (at_most (length self.now))) }
    {
        (0, None)
    }
}

impl<
    'a,
    K: Eq + Hash,
    V: PartialEq,
    H: BuildHasher,
    A: Allocator,
    G: BuildHasher,
    B: Allocator,
> FusedIterator for Diff<'a, K, V, H, A, G, B> {}

impl<
    'a,
    K: Eq + Hash,
    V: PartialEq,
    H: BuildHasher,
    A: Allocator,
    G: BuildHasher,
    B: Allocator,
> Clone for Diff<'a, K, V, H, A, G, B> {
    ghost is_clone = { λ it copy. copy ≡ it };

    ghost is_infallible = { λ _. ⊤ };

    fn clone(&self) -> Result<Diff<'a, K, V, H, A, G, B>, AllocError> {
        Ok(Diff {
            old: self.old,
            new: self.new,
            old_pairs: self.old_pairs.clone()?,
            new_pairs: self.new_pairs.clone()?,
        })
    }
}

impl<K: Eq + Hash, V: PartialEq, H: BuildHasher, A: Allocator> HashTrieMap<K, V, H, A> {
    /// What changed from this map to the other: first the pairs that the other lacks, and those of a key whose values aren't equal, in
    /// the order of this map; then the pairs that the other has beyond this one, in the order of that. Degrees and hashers may differ.
    #[inline(always)]
    pub fn diff<'a, G: BuildHasher, B: Allocator>(
        &'a self,
        other: &'a HashTrieMap<K, V, G, B>,
    ) -> Diff<'a, K, V, H, A, G, B>
        ensures rest { result ≡ differences K.eq V.eq self.now.entries other.now.entries }
        ensures hashed { IsHashed K.eq
            (key_hash H.BuildHasher H.Hasher.Hasher K.hash_input self.now.hasher) self.now }

        // `next` gives them in this order.
        ensures runs { ShowsInOrder (change_value {K = K} {V = V}) }
    {
        Diff {
            old: self,
            new: other,
            old_pairs: self.iter(),
            new_pairs: other.iter(),
        }
    }
}
