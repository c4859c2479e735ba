//! How many nodes look-ups visit, and how many keys they match: the contract of `looked_up` has the worked rows. How many keys
//! calls hash.
ghost use Rattle.rpds_hash.specs.HashedMap.{key_hash};
ghost use Rattle.tests_hashed.specs.HashVisits.{LookUpRows};

use crate::values::hash_trie_map::scenarios::map_of;
use rpds_core::steps::Steps;
use rpds_faults::{FailingItem, FlooredBuild, LifeCounts};
use rpds_hash::map::hash_trie_map::HashTrieMap;
use std::alloc::{Allocator, Global};
use std::hash::{BuildHasher, Hash};
use std::process::Abort;

// Looks the key up, and tells whether it is there.
pub(crate) fn looked_up<K: Eq + Hash, V, H: BuildHasher, A: Allocator>(
    map: &HashTrieMap<K, V, H, A>,
    key: &K,
    steps: &mut Steps,
) -> bool
    ensures { let hash = key_hash H.BuildHasher H.Hasher.Hasher K.hash_input map.now.hasher in
        LookUpRows K.eq hash map.now key.now steps.old steps.new }
{
    map.get_counted(key, steps).is_some()
}

#[test]
fn hashes_that_differ_in_the_last_digit(rt: HostRuntime) {
    let rows = [(2, [0, 1 << 63]), (64, [1, 65]), (64, [0, 1 << 60])];
    for (degree, keys) in rows {
        let map = map_of(&rt, rt.alloc(), degree, &keys);
        for key in &keys {
            assert!(rt; looked_up(&map, key, &mut Steps::new()));
        }
    }
}

type CountedMap<'t> = HashTrieMap<u64, u64, FlooredBuild<'t>>;

// The first numbers, each under itself.
fn numbers_below<'t>(
    rt: &impl Abort,
    alloc: Global,
    counts: &'t LifeCounts,
    end: u64,
) -> CountedMap<'t> {
    let mut map = HashTrieMap::new_with_hasher(alloc, FlooredBuild::new(0, counts));
    for number in 0..end {
        map.insert_mut(number, number).expect(rt, "ample memory");
    }
    map
}

// How many keys each of three look-ups hashes.
fn hashed_by_look_ups(map: &CountedMap<'_>, counts: &LifeCounts) -> [u64; 3] {
    counts.hashed();
    map.get(&5u64);
    let by_get = counts.hashed();
    map.contains_key(&5_000u64);
    let by_contains_key = counts.hashed();
    map.get_counted(&5u64, &mut Steps::new());
    [by_get, by_contains_key, counts.hashed()]
}

// The same of an insertion and a removal.
fn hashed_by_changes(rt: &impl Abort, map: &CountedMap<'_>, counts: &LifeCounts) -> [u64; 2] {
    counts.hashed();
    let longer = map.insert(5_000, 1).expect(rt, "ample memory");
    let by_insert = counts.hashed();
    let _shorter = longer.remove(&5u64).expect(rt, "ample memory");
    [by_insert, counts.hashed()]
}

// The same of a union, an intersection and a difference.
fn hashed_by_both(
    rt: &impl Abort,
    map: &CountedMap<'_>,
    other: &CountedMap<'_>,
    counts: &LifeCounts,
) -> [u64; 3] {
    counts.hashed();
    let _union = map.union(other).expect(rt, "ample memory");
    let by_union = counts.hashed();
    let _common = map.intersection(other).expect(rt, "ample memory");
    let by_intersection = counts.hashed();
    let _rest = map.difference(other).expect(rt, "ample memory");
    [by_union, by_intersection, counts.hashed()]
}

// The same of the changes from one map to the other.
fn hashed_by_changes_told(
    map: &CountedMap<'_>,
    other: &CountedMap<'_>,
    counts: &LifeCounts,
) -> u64 {
    counts.hashed();
    for _ in map.diff(other) {}
    counts.hashed()
}

// A call at a key hashes that one. A union hashes the keys of the other map, an intersection and a difference those of the smaller one,
// and the changes those of both.
#[test]
fn keys_are_hashed_once(rt: HostRuntime) {
    let counts = LifeCounts::new();
    let large = numbers_below(&rt, rt.alloc(), &counts, 1_000);
    let small = numbers_below(&rt, rt.alloc(), &counts, 10);
    assert!(rt; hashed_by_look_ups(&large, &counts) == [1; 3]);
    assert!(rt; hashed_by_changes(&rt, &large, &counts) == [1; 2]);
    assert!(rt; hashed_by_both(&rt, &large, &small, &counts) == [10; 3]);
    assert!(rt; hashed_by_both(&rt, &small, &large, &counts) == [1_000, 10, 10]);
    assert!(rt; hashed_by_changes_told(&large, &small, &counts) == 1_010);
}

// The keys up to 3 have one hash.
#[test]
fn new_values_hash_and_compare_no_key(rt: HostRuntime) {
    let counts = LifeCounts::new();
    let mut map = HashTrieMap::new_with_hasher(rt.alloc(), FlooredBuild::new(3, &counts));
    for number in 0..1_000u64 {
        map.insert_mut(FailingItem::new(number, &counts), number)
            .expect(&rt, "ample memory");
    }
    counts.hashed();
    counts.matched();
    let next = map
        .map_values(|value: &u64| Ok(value.wrapping_add(1)))
        .expect(&rt, "ample memory");
    assert!(rt; counts.hashed() == 0 && counts.matched() == 0);
    assert!(rt; next.get(&FailingItem::new(2, &counts)) == Some(&3));
}
