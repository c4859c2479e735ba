//! Maps of tests, made and walked.
use rpds_hash::identity_build::IdentityBuild;
use rpds_hash::map::hash_trie_map::HashTrieMap;
use std::alloc::{Allocator, Global};
use std::hash::{BuildHasher, Hash};
use std::process::Abort;

// A map whose keys are their own hashes.
pub(crate) type NumberMap = HashTrieMap<u64, u64, IdentityBuild>;

pub(crate) const DEGREES: [u8; 6] = [2, 4, 8, 16, 32, 64];

// Puts the pair into the map in place.
pub(crate) fn put<K: Eq + Hash + Drop, V: Drop, H: BuildHasher, A: Allocator + Copy>(
    rt: &impl Abort,
    map: &mut HashTrieMap<K, V, H, A>,
    key: K,
    value: V,
) {
    map.insert_mut(key, value).expect(rt, "ample memory");
}

// Takes the key out of the map in place; whether it was there.
pub(crate) fn take_out<K: Eq + Hash + Drop, V: Drop, H: BuildHasher, A: Allocator + Copy>(
    rt: &impl Abort,
    map: &mut HashTrieMap<K, V, H, A>,
    key: &K,
) -> bool {
    map.remove_mut(key).expect(rt, "ample memory")
}

// The map of the keys in this order, each with ten times itself.
pub(crate) fn map_of(rt: &impl Abort, alloc: Global, degree: u8, keys: &[u64]) -> NumberMap {
    assert!(rt; DEGREES.contains(&degree));
    let mut map = HashTrieMap::new_with_hasher_and_degree(alloc, IdentityBuild {}, degree);
    for key in keys {
        put(rt, &mut map, *key, key.wrapping_mul(10));
    }
    map
}
